// Answers of calls that no command passes on.

use prem_gate::Gates;
use prem_list::Sequence;
use prem_plant::default_plant;
use prem_syntax::Name;
use prem_tasks::TaskSet;
use prem_word::{Range, range_meet};
use std::alloc::Global;
use std::io;

fn tell_meets(rt: &impl Print) -> io::Result<()> {
    let first = Range { lo: -5, hi: 3 };
    for other in [Range { lo: 3, hi: 9 }, Range { lo: 4, hi: 9 }] {
        let met = range_meet(first, other);
        println!(rt; "{first:?} and {other:?} => {met:?}")?;
    }
    Ok(())
}

fn tell_names(rt: &impl Print, alloc: Global) -> io::Result<()> {
    for length in [0usize, 1, 64, 65] {
        let name = Name::new(alloc, &vec![in alloc; b'a'; length]?)?;
        let is_name = name.is_some();
        println!(rt; "a name of {length} bytes => {is_name}")?;
    }
    Ok(())
}

pub fn tell(rt: &impl Print, alloc: Global) -> io::Result<()> {
    println!(rt; "# calls that no command passes on")?;
    tell_meets(rt)?;
    tell_names(rt, alloc)?;
    let plant = default_plant();
    let gates = Gates::new(alloc, &[], &[], plant.line)?;
    let waiting = gates.waiting(0);
    println!(rt; "what waits at a device that is not there => {waiting:?}")?;
    let set = TaskSet::new(plant, Sequence::new(alloc), Sequence::new(alloc));
    let is_set = set.is_some();
    println!(rt; "a set without tasks => {is_set}")
}
