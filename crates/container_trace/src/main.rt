#![tactic(auto)]

// Performs the calls that standard input says, one a line, on one container of runs, and shows what each did.
use bufs::IoBufs;
use container_calls::call::Call;
use container_calls::perform::perform;
use container_report::border::Bordered;
use container_report::outcome::{Copied, HandedOut};
use container_report::state::{Contents, Totals};
use container_text::chunks::Spelled;
use container_text::lines::{Line, read_line};
use iobuf::chunk::Chunk;
use iobuf::run::Run;
use report::line::announce;
use std::alloc::{AllocError, Global};
use std::io;
use store::fault::Fault;
use store::sizes::CHUNK_LIMIT;
use store::space::Store;

// Why what a line says is not done: it is refused, or the program cannot go on.
#[derive(Drop)]
enum Stop {
    Refused(Fault),
    Failed(anyhow::Error),
}

impl From<Fault> for Stop {
    fn from(fault: Fault) -> Stop {
        Stop::Refused(fault)
    }
}

impl From<AllocError> for Stop {
    fn from(error: AllocError) -> Stop {
        Stop::Failed(error.into())
    }
}

impl From<io::Error> for Stop {
    fn from(error: io::Error) -> Stop {
        Stop::Failed(error.into())
    }
}

// The bytes of a chunk.
fn bytes_of(heap: Global, store: &Store, chunk: &Run) -> Result<Vec<u8>, AllocError> {
    let mut bytes = vec![in heap; 0; chunk.remaining()]?;
    chunk
        .write_out(store, bytes.len(), bytes.as_mut_slice())
        .unwrap();
    Ok(bytes)
}

// The chunks of a container as they are shown: their bytes, one chunk behind the other, and their sizes, as `Bordered`
// takes them.
#[derive(Drop)]
struct Rows {
    bytes: Vec<u8>,
    sizes: Vec<usize>,
}

impl Rows {
    fn read(heap: Global, store: &Store, bufs: &IoBufs<'_, Run>) -> Result<Rows, AllocError> {
        let mut bytes = Vec::with_capacity(heap, bufs.remaining())?;
        let mut sizes = Vec::with_capacity(heap, bufs.chunk_count())?;
        for chunk in bufs.iter() {
            bytes.extend_from_slice(bytes_of(heap, store, chunk)?.as_slice())?;
            sizes.push(chunk.remaining())?;
        }
        Ok(Rows { bytes, sizes })
    }

    fn bordered(&self) -> Bordered<'_> {
        Bordered {
            bytes: self.bytes.as_slice(),
            sizes: self.sizes.as_slice(),
        }
    }
}

// The runs that are spelled.
fn runs_of(heap: Global, chunks: &[Spelled]) -> Result<Vec<Run>, Stop> {
    chunks
        .iter()
        .map(|chunk| Run::try_from(*chunk).map_err(Stop::from))
        .try_collect(heap)
}

// The call on the run that is spelled. A method of `Call` that does this for any two chunks would be as long, and used
// here alone.
fn with_run(call: Call<Spelled>) -> Result<Call<Run>, Fault> {
    Ok(match call {
        Call::Append(chunk) => Call::Append(chunk.try_into()?),
        Call::Prepend(chunk) => Call::Prepend(chunk.try_into()?),
        Call::Advance(n) => Call::Advance(n),
        Call::SplitTo(n) => Call::SplitTo(n),
        Call::CopyToBytes(n) => Call::CopyToBytes(n),
    })
}

// A container of runs that calls are performed on, its store, and where it is printed what they did. The program for one
// chunk has one of its own: the two hold other things and show other things, and share how a line is announced.
#[derive(Drop)]
struct Tracer<'a> {
    rt: &'a HostRuntime,
    store: Store,
    bufs: IoBufs<'a, Run>,
}

impl Tracer<'_> {
    // Performs a call on runs, and prints what it did.
    fn trace_call(&mut self, call: Call<Run>) -> Result<(), Stop> {
        let rt = self.rt;
        let mut slots = [Run::blank(); CHUNK_LIMIT];
        let mut target = IoBufs::new(&mut slots);
        // No more than this can be copied out.
        let mut out = vec![in rt.alloc(); 0; self.bufs.remaining()]?;
        let copied = perform(
            call,
            &mut self.bufs,
            &self.store,
            &mut target,
            out.as_mut_slice(),
        )?;
        match (call, copied) {
            (_, Some(count)) => println!(rt; "   {}", Copied(&out[..count]))?,
            (Call::SplitTo(_), None) => {
                let rows = Rows::read(rt.alloc(), &self.store, &target)?;
                println!(rt; "   {}", HandedOut(rows.bordered()))?;
            }
            (_, None) => println!(rt; "   accepted")?,
        }
        Ok(())
    }

    // Does what was said, which is a value because a line was read as it, and prints what that did.
    fn trace_said(&mut self, said: Line) -> Result<(), Stop> {
        match said {
            Line::FromChunks(chunks) => {
                let runs = runs_of(self.rt.alloc(), chunks.as_slice())?;
                self.bufs.from_chunks(runs.as_slice())?;
                println!(self.rt; "   accepted")?;
                Ok(())
            }
            Line::Call(call) => self.trace_call(with_run(call)?),
        }
    }

    // Prints what the container holds.
    fn print_state(&self) -> anyhow::Result<()> {
        let rows = Rows::read(self.rt.alloc(), &self.store, &self.bufs)?;
        let count = self.bufs.chunk_count();
        let contents = Contents {
            count,
            remaining: self.bufs.remaining(),
            chunks: rows.bordered(),
        };
        println!(self.rt; "   {contents}")?;
        let totals = Totals {
            capacity: self.bufs.capacity(),
            writable: self.bufs.remaining_mut(),
            free: self.bufs.limit().saturating_sub(count),
        };
        println!(self.rt; "   {totals}")?;
        Ok(())
    }

    // Does what one line says, if it says anything, and prints the line, the outcome and what the container then holds.
    fn trace_line(&mut self, number: usize, line: &str) -> anyhow::Result<()> {
        let found = read_line(self.rt.alloc(), line.as_bytes());
        let Some(said) = announce(self.rt, number, line, found)? else {
            return Ok(());
        };
        match self.trace_said(said) {
            Ok(()) => {}
            Err(Stop::Refused(fault)) => println!(self.rt; "   {fault}")?,
            Err(Stop::Failed(error)) => return Err(error),
        }
        self.print_state()
    }
}

fn main(rt: HostRuntime) -> anyhow::Result<()> {
    let mut slots = [Run::blank(); CHUNK_LIMIT];
    let mut tracer = Tracer {
        rt: &rt,
        store: Store::new(),
        bufs: IoBufs::new(&mut slots),
    };
    for (number, line) in (1usize..).zip(rt.lines(rt.alloc())) {
        tracer.trace_line(number, line?.as_str())?;
    }
    Ok(())
}
