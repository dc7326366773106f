// What a walk has seen so far.
ghost use Rattle.std.specs.Prelude.{◌≡◌, [], ◌∷◌, OnOk};
ghost use Rattle.prem_annotating.specs.Seen.{touch};
ghost use Rattle.prem_analysis.specs.Ranging.View.{span_of};
ghost use Rattle.prem_annotate.specs.Seeing.Sight.{argument, sight_of, touched, passed_on};

use prem_analysis::ranging::Range;
use prem_syntax::Place;
use std::alloc::AllocError;

/// An access of elements of a global, by its number. A scalar is an array of one element.
#[derive(Clone, Copy)]
pub struct GlobalAccess {
    pub at: Place,
    pub global: usize,
    pub elements: Range,
}

/// An argument of a call: the number of the function that is called, that of its parameter, and the range of the values.
#[derive(Clone, Copy)]
pub struct Argument {
    pub callee: usize,
    pub parameter: usize,
    pub range: Range,
}

/// The accesses and the arguments, in the order of the text.
#[derive(Drop)]
pub struct Sight {
    pub touches: Vec<GlobalAccess>,
    pub arguments: Vec<Argument>,
}

impl Sight {
    /// An access is put behind the others.
    pub fn touch(&mut self, at: Place, global: usize, elements: Range) -> Result<(), AllocError>
        ensures { OnOk result (sight_of self.new ≡ touched (touch at global (span_of elements) ∷ []) (sight_of self.old)) }
    {
        self.touches.push(GlobalAccess {
            at,
            global,
            elements,
        })?;
        Ok(())
    }

    /// An argument is put behind the others.
    pub fn pass(&mut self, callee: usize, parameter: usize, range: Range) -> Result<(), AllocError>
        ensures { OnOk result (sight_of self.new ≡ passed_on (argument callee parameter (span_of range) ∷ []) (sight_of self.old)) }
    {
        self.arguments.push(Argument {
            callee,
            parameter,
            range,
        })?;
        Ok(())
    }
}
