//! Lines of code.
ghost use Rattle.std.specs.Prelude.{◌≡◌, ◌∷◌, length, Some};
ghost use Rattle.pardo_text.specs.Code.{whole_at, way_at, array_place, assignment_target};
ghost use Rattle.pardo_text.specs.Code.{assignment_at, has_form, table_place};
ghost use Rattle.pardo_text.specs.Inner.Names.{names_in};
ghost use Rattle.pardo_text.specs.Inner.Tokens.{GivesAsRead};

use crate::cursor::Cursor;
use crate::draft::Draft;
use crate::fault::PardoKind;
use crate::names::{Named, Names, Scope};
use crate::parse::{expression, place_in, quotient};
use crate::part::{Mark, ended, expect, indexed, new_name};
use crate::symbol::Symbol;
use crate::token::Token;
use pardo_program::{Block, Expr, Statement, Target};
use std::alloc::Global;
use text_lines::is_word;

impl<'t> Draft<'t> {
    ghost use Rattle.pardo_text.specs.Code.{statement_line, if_line, while_line, for_line};
    ghost use Rattle.pardo_text.specs.Code.{assignment_line, else_of, elsif_line, elsifs_ended};
    ghost use Rattle.pardo_text.specs.Code.{assert_line, named_line};
    ghost use Rattle.pardo_program.specs.declared.statement.Statement.TheVariants.{EndIf};
    ghost use Rattle.pardo_text.specs.Tokens.{symbol};
    ghost use Rattle.pardo_text.specs.Drafts.{fitting, with_line, with_block, with_loop};
    ghost use Rattle.pardo_program.specs.declared.block.Block.TheVariants.{For as ForBlock};
    ghost use Rattle.pardo_text.specs.declared.symbol.Symbol.TheVariants.{Else, End};
    ghost use Rattle.pardo_text.specs.Inner.Drafts.{draft_of};

    /// Reads a line of code of this number.
    #[tactic(auto, unfolding(crate::specs::Code::statement_line))]
    pub(crate) fn take_code(
        &mut self,
        number: u64,
        tokens: &mut Cursor<'t>,
    ) -> Result<(), PardoKind>
        ensures { GivesAsRead (λ _. draft_of self.new) result
            (statement_line number (draft_of self.old) tokens.old) }
    {
        match tokens.next() {
            Some(Token::Symbol(Symbol::If)) => self.take_if(number, tokens),
            Some(Token::Symbol(Symbol::While)) => self.take_while(number, tokens),
            Some(Token::Symbol(Symbol::For)) => self.take_for(number, tokens),
            Some(Token::Symbol(Symbol::Else)) => self.take_else(number, tokens),
            Some(Token::Symbol(Symbol::End)) => self.take_end(number, tokens),
            Some(Token::Name(name)) => self.take_named(number, name, tokens),
            _ => Err(PardoKind::BadLine),
        }
    }

    // Reads what follows `if`.
    #[tactic(auto, unfolding(crate::specs::Code::if_line))]
    fn take_if(&mut self, number: u64, tokens: &mut Cursor<'t>) -> Result<(), PardoKind>
        ensures { GivesAsRead (λ _. draft_of self.new) result
            (if_line number (draft_of self.old) tokens.old) }
    {
        let condition = whole(self.alloc, &self.names, Scope::Any, tokens)?;
        self.begin(number, Statement::If(condition), Block::If)?;
        self.fit()
    }

    // Reads what follows `while`.
    #[tactic(auto, unfolding(crate::specs::Code::while_line))]
    fn take_while(&mut self, number: u64, tokens: &mut Cursor<'t>) -> Result<(), PardoKind>
        ensures { GivesAsRead (λ _. draft_of self.new) result
            (while_line number (draft_of self.old) tokens.old) }
    {
        let condition = whole(self.alloc, &self.names, Scope::Uniform, tokens)?;
        let begin = self.lines.len();
        self.begin(number, Statement::While(condition, 0), Block::While(begin))?;
        Ok(())
    }

    // Reads what follows `for`.
    #[tactic(auto, unfolding(crate::specs::Code::for_line))]
    fn take_for(&mut self, number: u64, tokens: &mut Cursor<'t>) -> Result<(), PardoKind>
        ensures { GivesAsRead (λ _. draft_of self.new) result
            (for_line number (draft_of self.old) tokens.old) }
    {
        let name = new_name(&self.names, tokens)?;
        expect(Mark::Equals, tokens)?;
        let first = expression(self.alloc, &self.names, Scope::Bound, tokens)?;
        let up = way(tokens)?;
        let last = whole(self.alloc, &self.names, Scope::Bound, tokens)?;
        let nest = self.loops.len();
        self.begin_loop(number, name, Statement::For(nest, first, last, up, 0))
    }

    // The first line of a loop, whose variable has this name.
    fn begin_loop(
        &mut self,
        number: u64,
        name: &'t [u8],
        statement: Statement,
    ) -> Result<(), PardoKind>
        ensures { GivesAsRead (λ _. draft_of self.new) result
            (fitting (with_loop name.now (with_block
            (ForBlock (length (draft_of self.old).lines)) (with_line number statement
            (draft_of self.old))))) }
    {
        let begin = self.lines.len();
        self.begin(number, statement, Block::For(begin))?;
        self.open_loop(name)?;
        self.fit()
    }

    // Reads what follows `else`.
    #[tactic(auto, unfolding(crate::specs::Code::statement_line))]
    fn take_else(&mut self, number: u64, tokens: &Cursor<'t>) -> Result<(), PardoKind>
        ensures { GivesAsRead (λ _. draft_of self.new) result
            (statement_line number (draft_of self.old) (symbol Else ∷ tokens.now)) }
    {
        ended(tokens)?;
        self.add_else(number, Block::Else)
    }

    // Reads what follows `elsif`.
    #[tactic(auto, unfolding(crate::specs::Code::elsif_line))]
    fn take_elsif(&mut self, number: u64, tokens: &mut Cursor<'t>) -> Result<(), PardoKind>
        ensures { GivesAsRead (λ _. draft_of self.new) result
            (elsif_line number (draft_of self.old) tokens.old) }
    {
        self.add_else(number, Block::Elsif)?;
        self.take_if(number, tokens)
    }

    // The `else` of the innermost block, which opens this block.
    fn add_else(&mut self, number: u64, block: Block) -> Result<(), PardoKind>
        ensures { GivesAsRead (λ _. draft_of self.new) result
            (else_of block number (draft_of self.old) (draft_of self.old).blocks) }
    {
        match self.blocks.pop() {
            Some(Block::If) => {
                self.begin(number, Statement::Else, block)?;
                Ok(())
            }
            _ => Err(PardoKind::BadBlock),
        }
    }

    // Reads what follows `end`.
    #[tactic(auto, unfolding(crate::specs::Code::statement_line))]
    fn take_end(&mut self, number: u64, tokens: &Cursor<'t>) -> Result<(), PardoKind>
        ensures { GivesAsRead (λ _. draft_of self.new) result
            (statement_line number (draft_of self.old) (symbol End ∷ tokens.now)) }
    {
        ended(tokens)?;
        let statement = match self.blocks.pop() {
            None => return Err(PardoKind::BadBlock),
            Some(Block::If | Block::Else | Block::Elsif) => return self.end_choice(number),
            Some(Block::While(begin)) => {
                self.end_at(begin);
                Statement::EndWhile(begin)
            }
            Some(Block::For(begin)) => {
                self.close_loop();
                self.end_at(begin);
                Statement::EndFor(begin)
            }
        };
        self.add_line(number, statement)?;
        Ok(())
    }

    // The end of an `if` that was closed, and of the `elsif`s around it.
    fn end_choice(&mut self, number: u64) -> Result<(), PardoKind>
        ensures { GivesAsRead (λ _. draft_of self.new) result
            (Ok (elsifs_ended number (draft_of self.old).blocks
            (with_line number EndIf (draft_of self.old)))) }
    {
        self.add_line(number, Statement::EndIf)?;
        while let Some(Block::Elsif) = self.blocks.last() {
            self.blocks.pop();
            self.add_line(number, Statement::EndIf)?;
        }
        Ok(())
    }

    // Reads what follows the name that a line begins with.
    fn take_named(
        &mut self,
        number: u64,
        name: &[u8],
        tokens: &mut Cursor<'t>,
    ) -> Result<(), PardoKind>
        ensures { GivesAsRead (λ _. draft_of self.new) result
            (named_line number (draft_of self.old) name.now tokens.old) }
    {
        if has_form("elsif", name, tokens) {
            self.take_elsif(number, tokens)
        } else if has_form("assert", name, tokens) {
            self.take_assert(number, tokens)
        } else {
            self.take_assignment(number, name, tokens)
        }
    }

    // Reads what follows `assert`.
    #[tactic(auto, unfolding(crate::specs::Code::assert_line))]
    fn take_assert(&mut self, number: u64, tokens: &mut Cursor<'t>) -> Result<(), PardoKind>
        ensures { GivesAsRead (λ _. draft_of self.new) result
            (assert_line number (draft_of self.old) tokens.old) }
    {
        let condition = quotient(self.alloc, &self.names, tokens)?;
        ended(tokens)?;
        self.begin(number, Statement::If(condition), Block::If)?;
        self.blocks.pop();
        self.add_line(number, Statement::EndIf)?;
        self.fit()
    }

    // Reads what follows the name of the target of an assignment.
    fn take_assignment(
        &mut self,
        number: u64,
        name: &[u8],
        tokens: &mut Cursor<'t>,
    ) -> Result<(), PardoKind>
        ensures { GivesAsRead (λ _. draft_of self.new) result
            (assignment_line number (draft_of self.old) name.now tokens.old) }
    {
        let statement = assignment(self.alloc, &self.names, name, tokens)?;
        self.add_line(number, statement)?;
        Ok(())
    }
}

// Whether a line of code that begins with a name has the form of this word: no assignment.
fn has_form(form: &str, name: &[u8], tokens: &Cursor<'_>) -> bool
    ensures { result ≡ has_form form.now name.now tokens.now }
{
    match tokens.peek() {
        Some(Token::Symbol(Symbol::Assign | Symbol::OpenIndex)) => false,
        _ => is_word(name, form),
    }
}

// Reads an expression to the end of the line.
#[tactic(auto, unfolding(crate::specs::Code::whole_at))]
fn whole(
    alloc: Global,
    names: &Names<'_>,
    scope: Scope,
    tokens: &mut Cursor<'_>,
) -> Result<Expr, PardoKind>
    ensures { GivesAsRead (λ expr. expr) result (whole_at (names_in names.now) scope tokens.old) }
{
    let expr = expression(alloc, names, scope, tokens)?;
    ended(tokens)?;
    Ok(expr)
}

// Reads whether a loop counts up.
fn way(tokens: &mut Cursor<'_>) -> Result<bool, PardoKind>
    ensures { GivesAsRead (λ up. (up, tokens.new)) result (way_at tokens.old) }
{
    match tokens.next() {
        Some(Token::Symbol(Symbol::To)) => Ok(true),
        Some(Token::Symbol(Symbol::Downto)) => Ok(false),
        _ => Err(PardoKind::BadLine),
    }
}

// Reads what follows the name of the target of an assignment.
#[tactic(auto, unfolding(crate::specs::Code::assignment_at))]
fn assignment(
    alloc: Global,
    names: &Names<'_>,
    name: &[u8],
    tokens: &mut Cursor<'_>,
) -> Result<Statement, PardoKind>
    ensures { GivesAsRead (λ said. said) result
        (assignment_at (names_in names.now) name.now tokens.old) }
{
    let target = target(alloc, names, names.get(name).copied(), tokens)?;
    expect(Mark::Assign, tokens)?;
    let value = whole(alloc, names, Scope::Any, tokens)?;
    Ok(Statement::Assign(target, value))
}

// Reads what an assignment to this thing goes to, which a name stands for.
fn target(
    alloc: Global,
    names: &Names<'_>,
    thing: Option<Named>,
    tokens: &mut Cursor<'_>,
) -> Result<Target, PardoKind>
    ensures { GivesAsRead (λ place. (place, tokens.new)) result
        (assignment_target (names_in names.now) thing tokens.old) }
{
    let Some(thing) = thing else {
        return Err(PardoKind::UnknownName);
    };
    match (thing, indexed(tokens)) {
        (Named::Array(array), true) => place(alloc, names, array, tokens),
        (Named::Table(array, rows, columns), true) => {
            let index = place_in(alloc, names, rows, columns, tokens)?;
            Ok(Target::Array(array, index))
        }
        (Named::Scalar(array), false) => Ok(Target::Array(array, Expr::number(alloc, 0)?)),
        (Named::Private(x), false) => Ok(Target::Private(x)),
        _ => Err(PardoKind::WrongKind),
    }
}

// Reads the index of a place of an array, to its `]`.
fn place(
    alloc: Global,
    names: &Names<'_>,
    array: usize,
    tokens: &mut Cursor<'_>,
) -> Result<Target, PardoKind>
    ensures { GivesAsRead (λ place. (place, tokens.new)) result
        (array_place (names_in names.now) array (Some tokens.old)) }
{
    let index = expression(alloc, names, Scope::Any, tokens)?;
    expect(Mark::CloseIndex, tokens)?;
    Ok(Target::Array(array, index))
}
