//! Start values of arrays.
ghost use Rattle.std.specs.Prelude.{◌≡◌, ◌<◌, length};
ghost use Rattle.pardo_text.specs.Values.{filled, start_at, values_in};
ghost use Rattle.pardo_text.specs.Inner.Names.{names_in};
ghost use Rattle.pardo_text.specs.Inner.Tokens.{GivesAsRead};
ghost use Rattle.pardo_text.specs.Inner.Values.{after_values};

use crate::cursor::Cursor;
use crate::fault::PardoKind;
use crate::names::Names;
use crate::parse::fixed;
use crate::part::{Mark, dots, ended, expect};
use std::alloc::Global;

/// Reads the values of so many places, to the end of the line: all 0 where none is given.
#[tactic(auto, unfolding(crate::specs::Values::start_at))]
pub(crate) fn start_values(
    alloc: Global,
    places: u32,
    names: &Names<'_>,
    tokens: &mut Cursor<'_>,
) -> Result<Vec<u32>, PardoKind>
    ensures { GivesAsRead (λ values. values.items) result
        (start_at (names_in names.now) places tokens.old) }
{
    if tokens.len() == 0 {
        return Ok(vec![in alloc; 0; places as usize]?);
    }
    expect(Mark::Equals, tokens)?;
    let mut values = Vec::new(alloc);
    let fills = take_values(names, tokens, &mut values)?;
    fill(places as usize, fills, &mut values)?;
    Ok(values)
}

// Reads the values to the end of the line, and says whether `...` ends them.
fn take_values(
    names: &Names<'_>,
    tokens: &mut Cursor<'_>,
    values: &mut Vec<u32>,
) -> Result<bool, PardoKind>
    ensures { GivesAsRead (λ fills. (values.new.items, fills)) result (after_values values.old.items
        (values_in (names_in names.now) (length tokens.old) tokens.old)) }
{
    for _turn in 0..tokens.len() {
        let value = fixed(*values.allocator(), names, 0, u32::MAX, tokens)?;
        values.push(value)?;
        if tokens.len() == 0 {
            return Ok(false);
        }
        expect(Mark::Comma, tokens)?;
        if dots(tokens) {
            ended(tokens)?;
            return Ok(true);
        }
    }
    Err(PardoKind::BadLine)
}

// As many values as places, or fewer if the last one fills the rest.
fn fill(places: usize, fills: bool, values: &mut Vec<u32>) -> Result<(), PardoKind>
    requires { 0 < length values.old.items }
    ensures { GivesAsRead (λ _. values.new.items) result (filled places values.old.items fills) }
{
    let len = values.len();
    if len > places || (len < places && !fills) {
        return Err(PardoKind::WrongLength);
    }
    let last = values.last().copied().unwrap_or(0);
    values.resize(places, last)?;
    Ok(())
}
