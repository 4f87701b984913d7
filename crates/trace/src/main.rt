#![tactic(auto)]

// Performs the calls that standard input says, one a line, on one chunk, and shows what each did.
use calls::call::Call;
use calls::perform::perform;
use iobuf::chunk::Chunk;
use iobuf::run::Run;
use report::line::announce;
use report::outcome::{Accepted, Holds};
use store::sizes::STORE_SIZE;
use store::space::Store;
use text::lines::read_call;

// A chunk that calls are performed on, its store, and where it is printed what they did.
#[derive(Drop)]
struct Tracer<'a> {
    rt: &'a HostRuntime,
    store: Store,
    page: Run,
}

impl Tracer<'_> {
    // Performs a call, and prints the outcome.
    fn trace_call(&mut self, call: Call) -> anyhow::Result<()> {
        let mut out = [0; STORE_SIZE];
        match perform(call, &self.store, &mut self.page, &mut out) {
            Ok(count) => println!(self.rt; "   {}", Accepted(&out[..count]))?,
            Err(fault) => println!(self.rt; "   {fault}")?,
        }
        Ok(())
    }

    // Prints what the chunk holds.
    fn print_state(&self) -> anyhow::Result<()> {
        let mut out = [0; STORE_SIZE];
        let count = self.page.remaining();
        self.page.write_out(&self.store, count, &mut out).unwrap();
        let holds = Holds {
            bytes: &out[..count],
            capacity: self.page.capacity(),
        };
        println!(self.rt; "   {holds}")?;
        Ok(())
    }

    // Performs the call of one line, if it says one, and prints the line, the outcome and what the chunk then holds.
    fn trace_line(&mut self, number: usize, line: &str) -> anyhow::Result<()> {
        let found = read_call(line.as_bytes());
        let Some(call) = announce(self.rt, number, line, found)? else {
            return Ok(());
        };
        self.trace_call(call)?;
        self.print_state()
    }
}

fn main(rt: HostRuntime) -> anyhow::Result<()> {
    let mut tracer = Tracer {
        rt: &rt,
        store: Store::new(),
        page: Run::blank(),
    };
    for (number, line) in (1usize..).zip(rt.lines(rt.alloc())) {
        tracer.trace_line(number, line?.as_str())?;
    }
    Ok(())
}
