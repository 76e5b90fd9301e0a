//! The arrays that the instructions of a job name, each of them once.
ghost use Rattle.std.specs.Prelude.{◌≡◌, ◌++◌, [], map, string_bytes, IfOk, OnOk};
ghost use Rattle.std.specs.Option.{option_to_list};
ghost use Rattle.job_text.specs.Inner.Printing.{with_new_array};
ghost use Rattle.job_text.specs.Printed.{array_line, arrays_in, line_text, lines_text, once};
ghost use Rattle.job_text.specs.Printed.{operand_arrays};
ghost use Rattle.pram_job.specs.Instructions.{row_of};

use crate::array_names::ArrayNames;
use pram_job::{Array, Instr, Operands, Place};
use std::alloc::{AllocError, Global};
use std::collections::BTreeSet;
use std::marker::Model;

/// Arrays that differ, in the order in which they came.
#[derive(Drop)]
struct Arrays {
    items: Vec<Array>,
    known: BTreeSet<(u32, u32)>,
}

impl Model for Arrays {
    ghost use Rattle.std.specs.Prelude.{List, ◌≡◌};
    ghost use Rattle.std.specs.Ordering.{nat_cmp, ordering_then};
    ghost use Rattle.std.specs.BTreeSet as set;
    ghost use Rattle.std.specs.List.{list_any};
    ghost use Rattle.pram_job.specs.declared.instr.Array.{Array};
    ghost use Rattle.job_text.specs.Printed.{is_same};

    ghost Value = { List Array };

    ghost view = { λ a. a.items.items };

    ghost invariant = { λ a. (array : Array)
        → set.contains (λ x y. ordering_then (nat_cmp x.0 y.0) (nat_cmp x.1 y.1)) a.known
        (array.base, array.len)
        ≡ list_any (λ other. is_same other array) a.items.items };
}

impl Arrays {
    fn new(alloc: Global) -> Arrays
        ensures { result ≡ [] }
    {
        Arrays {
            items: Vec::new(alloc),
            known: BTreeSet::new(alloc),
        }
    }

    // The arrays with one more, unless it is among them.
    fn with(mut self, array: Array) -> Result<Arrays, AllocError>
        ensures { IfOk result (λ arrays. arrays ≡ with_new_array self array) }
    {
        if self.known.insert((array.base, array.len))? {
            self.items.push(array)?;
        }
        Ok(self)
    }
}

/// The arrays that instructions name, each where it first stands.
pub(crate) fn arrays_of(alloc: Global, code: &[Instr]) -> Result<Vec<Array>, AllocError>
    ensures { IfOk result (λ arrays. arrays.items ≡ once (arrays_in code.now)) }
{
    let mut arrays = Arrays::new(alloc);
    for instr in code {
        if let Some(array) = array_of(*instr) {
            arrays = arrays.with(array)?;
        }
    }
    Ok(arrays.items)
}

fn array_of(instr: Instr) -> Option<Array>
    ensures { option_to_list result ≡ operand_arrays (row_of instr).1 }
{
    let (_, operands) = instr.row();
    match operands {
        Operands::TargetPlace(_, Place::Named(array, _)) => Some(array),
        Operands::PlaceValue(Place::Named(array, _), _) => Some(array),
        _ => None,
    }
}

/// Adds a line for each array.
pub(crate) fn push_arrays<N: ArrayNames>(
    text: &mut String,
    names: &N,
    arrays: &[Array],
) -> Result<(), AllocError>
    ensures { OnOk result (string_bytes text.new ≡ string_bytes text.old
        ++ lines_text (map (array_line (N.words names.now)) arrays.now)) }
{
    for array in arrays {
        push_array(text, names, *array)?;
    }
    Ok(())
}

fn push_array<N: ArrayNames>(text: &mut String, names: &N, array: Array) -> Result<(), AllocError>
    ensures { OnOk result (string_bytes text.new
        ≡ string_bytes text.old ++ line_text (array_line (N.words names.now) array)) }
{
    let Array { base, len } = array;
    text.push_str("array ")?;
    names.push_name(text, array)?;
    writeln!(text, " {base} {len}")
}
