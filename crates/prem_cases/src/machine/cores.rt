// The core of a task, as a caller that has the bus whenever it asks for it calls it.
ghost use Rattle.std.specs.Prelude.{◌≡◌, length};
ghost use Rattle.prem_gate.specs.Gates.{wants};

use crate::machine::images::PLANT;
use crate::machine::programs::OUT_FIVE;
use prem_gate::CoreWant;
use prem_lru::{Cache, Lru, Memory};
use prem_machine::{Change, Core, Issued};
use prem_plant::Target;
use std::alloc::{AllocError, Global};
use std::io;

/// A core whose interval began in cycle 20, with its cache and its memory.
#[derive(Drop)]
struct CoreBench {
    core: Core,
    cache: Cache<Lru>,
    memory: Memory,
    ghost begun: { core.first ≡ 20 },
    ghost size: { length memory ≡ 4096 },
    ghost whole: { cache.plant.memory ≡ 4096 },
}

/// Whether it is something that a core wants of the bus.
fn is_wanted(want: CoreWant) -> bool
    ensures { result ≡ wants want }
{
    !matches!(want, CoreWant::No)
}

impl CoreBench {
    /// Over a program that puts a word out, of which its job is to come.
    fn new(alloc: Global) -> Result<Option<CoreBench>, AllocError> {
        let mut content = Vec::new(alloc);
        for word in OUT_FIVE {
            content.extend_from_slice(&word.to_le_bytes())?;
        }
        if !PLANT.is_in_range() || content.len() > 4096 {
            return Ok(None);
        }
        let memory = Memory::new(alloc, 4096, &content)?;
        let cache = Cache::<Lru>::new(alloc, &PLANT)?;
        let mut core = Core::start(0, 64, Target::Rv32i);
        core.begin(20);
        Ok(Some(CoreBench {
            core,
            cache,
            memory,
        }))
    }

    /// The next instruction issues.
    fn issue(&mut self) -> Issued {
        self.core.issue(20, &mut self.cache, &mut self.memory, 0)
    }

    /// Pays all that is owed, which is less than 40 cycles: those of the bus, and those of the instruction's cost.
    fn pay(&mut self) -> (u32, u32) {
        let mut bus: u32 = 0;
        let mut cost: u32 = 0;
        for _ in 0..40 {
            if self.core.owes() {
                let had = is_wanted(self.core.wants());
                self.core.pay(had);
                if had {
                    bus = bus.saturating_add(1);
                } else {
                    cost = cost.saturating_add(1);
                }
            }
        }
        (bus, cost)
    }
}

/// The name of a change.
fn change_name(change: Change) -> &'static str {
    match change {
        Change::Stay => "stay",
        Change::Memory => "memory",
        Change::Execute { .. } => "execute",
        Change::End => "end",
        Change::Job => "job",
    }
}

/// What an instruction has told, without the word that it may have put out.
fn told(alloc: Global, issued: Issued) -> Result<String, AllocError> {
    match issued {
        Issued::Trap(_) => String::from_str(alloc, "trap"),
        Issued::Went {
            change,
            hits,
            misses,
            backs,
            ..
        } => {
            let name = change_name(change);
            format!(in alloc; "{name}; hits {hits} misses {misses} backs {backs}")
        }
    }
}

/// The word that an instruction has put out.
fn output(issued: Issued) -> Option<u32> {
    match issued {
        Issued::Trap(_) => None,
        Issued::Went { output, .. } => output,
    }
}

// Each row has an instruction's address, what it means for the interval, the lines that it touched, the cycles that are
// owed for it on the bus and for its cost, its own one left out, and the word that it puts out. With a cycle for each
// instruction it comes to the 55 cycles of the interval in which the same program runs on the machine. The line of 0 is
// missed first, then that of the stack at 48 by a store, and those of 16 and 32.
pub(crate) fn tell(rt: &impl Print, alloc: Global) -> io::Result<()> {
    println!(rt; "# a core by itself")?;
    let Some(mut bench) = CoreBench::new(alloc)? else {
        return Ok(());
    };
    for _ in 0..11 {
        let pc = bench.core.pc();
        let issued = bench.issue();
        let (bus, cost) = bench.pay();
        let text = told(alloc, issued)?;
        print!(rt; "{pc} {text}; bus {bus} cost {cost}")?;
        match output(issued) {
            Some(word) => println!(rt; "; out {word}")?,
            None => println!(rt; "")?,
        }
    }
    Ok(())
}
