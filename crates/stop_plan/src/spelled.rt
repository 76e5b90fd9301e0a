//! Plans as text.
ghost use Rattle.std.specs.Prelude.{◌≡◌, ◌++◌, IfOk, OnOk, string_bytes};
ghost use Rattle.stop_plan.specs.Texts.{act_word, plan_text, plan_lines};

use crate::{Act, Row};
use std::alloc::{AllocError, Global};

/// The text of a plan of these rows, which is read as that plan.
pub fn plan_text(alloc: Global, rows: &[Row]) -> Result<String, AllocError>
    ensures { IfOk result (λ text. string_bytes text ≡ plan_text rows.now) }
{
    let mut text = format!(in alloc; "worker,act,ticks\n")?;
    push_rows(&mut text, rows)?;
    Ok(text)
}

fn push_rows(text: &mut String, rows: &[Row]) -> Result<(), AllocError>
    ensures { OnOk result (string_bytes text.new ≡ string_bytes text.old ++ plan_lines rows.now) }
{
    for row in rows {
        let Row { worker, act, ticks } = *row;
        let word = act_word(act);
        writeln!(text, "{worker},{word},{ticks}")?;
    }
    Ok(())
}

fn act_word(act: Act) -> &'static str
    ensures { result.now ≡ act_word act }
{
    match act {
        Act::Go => "go",
        Act::Sleep => "sleep",
        Act::Back => "back",
        Act::Stop => "stop",
    }
}
