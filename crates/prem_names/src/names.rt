// What the names of a program stand for.
ghost use Rattle.std.specs.Prelude.{◌≡◌, [], ◌∷◌, map, IfOk, OnOk};
ghost use Rattle.std.specs.Option.{option_map};
ghost use Rattle.prem_syntax.specs.Name.{name_bytes};
ghost use Rattle.prem_syntax.specs.SyntaxOf.{global_of, function_of};
ghost use Rattle.prem_syntax.specs.Breaches.{has_name};
ghost use Rattle.prem_syntax.specs.Resolve.{find_local, find_global, find_function, number_named, meaning_of};
ghost use Rattle.prem_names.specs.Scopes.{function_found, global_found, local_found, local_texts, with_global, with_locals, without_locals, first_scope, scope_of};

use crate::index::Index;
use prem_syntax::{Function, Global, Meaning, Name, Ty};
use std::alloc::{AllocError, Global as Allocator};
use std::marker::Model;
use std::mem::replace;

/// What has a name at a place of a function: parameters and the locals that are declared before, the globals that stand
/// before the function, and all functions of the program. Contracts see the scope of that place.
#[derive(Drop)]
pub struct Names<'a> {
    alloc: Allocator,
    locals: Vec<(&'a Name, Ty)>,
    globals: Vec<&'a Global>,
    functions: Vec<&'a Function>,
    local_index: Index<'a>,
    global_index: Index<'a>,
    function_index: Index<'a>,
}

impl<'a> Model for Names<'a> {
    ghost use Rattle.std.specs.Coded.{codes};
    ghost use Rattle.prem_syntax.specs.contracts.name.Name as name;
    ghost use Rattle.prem_syntax.specs.contracts.tree.Global as global;
    ghost use Rattle.prem_syntax.specs.contracts.tree.Function as function;
    ghost use Rattle.prem_names.specs.Scopes.{Known, scope_of, AreIndexed};

    ghost Value = { Known };

    ghost coded = { Prim.hlevel (codes, name.the_row.coded, global.the_row.coded, function.the_row.coded) };

    ghost view = { λ n. record { locals = n.locals.items; globals = n.globals.items; functions = n.functions.items } };

    ghost invariant = { λ n. AreIndexed n.locals.items n.globals.items n.functions.items n.local_index n.global_index n.function_index };
}

/// The names of functions, as an index.
fn names_of<'a>(alloc: Allocator, functions: &[&'a Function]) -> Result<Index<'a>, AllocError>
    ensures { IfOk result (λ names. names ≡ map (λ f. name_bytes f.now.name) functions.now) }
{
    let mut names = Index::new(alloc);
    for f in functions {
        names.push(f.name.bytes())?;
    }
    Ok(names)
}

impl<'a> Names<'a> {
    /// The functions of a program, before its first global. It fails only for want of memory.
    pub fn new(alloc: Allocator, functions: Vec<&'a Function>) -> Result<Names<'a>, AllocError>
        ensures { IfOk result (λ names. scope_of names ≡ first_scope (map (λ f. function_of f.now) functions.entry.items)) }
    {
        let function_index = names_of(alloc, &functions)?;
        Ok(Names {
            alloc,
            locals: Vec::new(alloc),
            globals: Vec::new(alloc),
            functions,
            local_index: Index::new(alloc),
            global_index: Index::new(alloc),
            function_index,
        })
    }

    /// Adds a parameter or a local. It fails only for want of memory.
    pub fn add_local(&mut self, name: &'a Name, ty: Ty) -> Result<(), AllocError>
        ensures { OnOk result (scope_of self.new ≡ with_locals (scope_of self.old) ((name_bytes name.now, ty) ∷ [])) }
    {
        self.locals.reserve(1)?;
        self.local_index.push(name.bytes())?;
        self.locals.push_reserved((name, ty));
        Ok(())
    }

    /// Adds a global. It fails only for want of memory.
    pub fn add_global(&mut self, global: &'a Global) -> Result<(), AllocError>
        ensures { OnOk result (scope_of self.new ≡ with_global (scope_of self.old) (global_of global.now)) }
    {
        self.globals.reserve(1)?;
        self.global_index.push(global.name.bytes())?;
        self.globals.push_reserved(global);
        Ok(())
    }

    /// Drops the parameters and locals: another function begins.
    pub fn drop_locals(&mut self)
        ensures { scope_of self.new ≡ without_locals (scope_of self.old) }
    {
        self.locals = Vec::new(self.alloc);
        let _dropped = replace(&mut self.local_index, Index::new(self.alloc));
    }

    /// All functions, in order.
    pub fn functions(&self) -> &[&'a Function]
        ensures { map (λ f. function_of f.now) result.now ≡ (scope_of self.now).functions }
    {
        self.functions.as_slice()
    }

    /// The globals, in order.
    pub fn into_globals(self) -> Vec<&'a Global>
        ensures { map (λ g. global_of g.now) result.items ≡ (scope_of self.entry).globals }
    {
        self.globals
    }

    /// Whether a parameter or local has a name.
    pub fn has_local(&self, name: &Name) -> bool
        ensures { result ≡ has_name (local_texts (scope_of self.now)) (name_bytes name.now) }
    {
        self.local_index.has(name.bytes())
    }

    /// The number and the type of the first parameter or local with a name.
    fn find_local(&self, name: &Name) -> Option<(usize, Ty)>
        ensures { result ≡ option_map local_found (find_local (scope_of self.now) (name_bytes name.now)) }
    {
        match self.local_index.find(name.bytes()) {
            Some(number) => Some((number, self.locals[number].1)),
            None => None,
        }
    }

    /// The first global with a name, and its number.
    pub fn find_global(&self, name: &Name) -> Option<(usize, &'a Global)>
        ensures { option_map global_found result ≡ find_global (scope_of self.now) (name_bytes name.now) }
    {
        match self.global_index.find(name.bytes()) {
            Some(number) => Some((number, self.globals[number])),
            None => None,
        }
    }

    /// The first function with a name, and its number.
    pub fn find_function(&self, name: &[u8]) -> Option<(usize, &'a Function)>
        ensures { option_map function_found result ≡ find_function (scope_of self.now).functions name.now }
    {
        match self.function_index.find(name) {
            Some(number) => Some((number, self.functions[number])),
            None => None,
        }
    }

    /// The number of the first function with a name.
    pub fn number_of_function(&self, name: &[u8]) -> Option<usize>
        ensures { result ≡ number_named (scope_of self.now).functions name.now }
    {
        match self.find_function(name) {
            Some((number, _)) => Some(number),
            None => None,
        }
    }

    /// What a name stands for: a parameter or local, then a global, then a function.
    pub fn meaning_of(&self, name: &Name) -> Meaning
        ensures { result ≡ meaning_of (scope_of self.now) (name_bytes name.now) }
    {
        if let Some((number, ty)) = self.find_local(name) {
            return Meaning::Local { number, ty };
        }
        if let Some((number, global)) = self.find_global(name) {
            let ty = global.ty;
            return match global.len {
                Some(length) => Meaning::Array { number, ty, length },
                None => Meaning::Scalar { number, ty },
            };
        }
        match self.number_of_function(name.bytes()) {
            Some(number) => Meaning::Function { number },
            None => Meaning::Nothing,
        }
    }
}
