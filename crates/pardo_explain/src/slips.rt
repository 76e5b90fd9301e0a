//! The table of slips.
//!
//! A row is `FIRST; BEFORE; HERE; AFTER; SENTENCE`: what stands first in its line, before the
//! point, at it and after it. Each of the four is a list of tokens, of which any serves, or empty,
//! where all do. `NIL` is no token, `NAME` any name, `NUMBER` any number. In `BEFORE` other words
//! in capitals name what could stand at the point. The first row that fits serves.

/// What begins texts of other languages.
pub(crate) const OTHER_LANGUAGES: &str = "# / < import from def class int void using package \
    public function program let var";

/// Lines that do not have the form of any.
pub(crate) const BAD_LINE: &str = "\
; NIL; const procs shared private; ; names are declared before `code`
; else; if; ; `else` stands alone: write `elsif` and the condition, or an `if` on the next line \
    with an `end` of its own
else; else; ; ; `else` stands alone on its line
end; end; ; ; `end` stands alone on its line: it closes the innermost block
; /; /; ; a comment begins with `;`
; NIL; /; / *; a comment begins with `;`
if while elsif assert; =; =; ; equality is one `=`
; =; =; ; equality is one `=`, and an assignment is `:=`
; &; &; ; \"and\" is `and`
; |; |; ; \"or\" is `or`
; ASSIGNMENT; +; +; write `{left} := {left} + 1`
; ASSIGNMENT; -; -; write `{left} := {left} - 1`
; ASSIGNMENT; +; =; write `{left} := {left} + ..`
; ASSIGNMENT; -; =; write `{left} := {left} - ..`
; ASSIGNMENT; *; =; write `{left} := {left} * ..`
; ASSIGNMENT; =; ; an assignment is `:=`; `=` compares
; ASSIGNMENT; <; -; an assignment is `:=`
; ASSIGNMENT; (; ; `{before}` has no arguments, and there are no procedures
if while elsif assert; ; :=; ; a condition compares with `=`; `:=` assigns
for const shared private; ; :=; ; here it is `=`: `{first} {second} = ..`
for; for; (; ; a loop is `for k = first to last`, without brackets and steps
for; for; ; ; a loop is `for k = first to last`, where k is a new name
for; ; in; ; a loop is `for k = first to last`
for; ; step by; ; a loop counts by one, and ends with its line: `for k = first to last`
for; ; do; ; a loop ends with its line, and has no `do`
for; WAY; ; ; `to` or `downto` is missing: a loop is `for k = first to last`
; ; then do; ; there is no `{here}`: a condition goes to the end of its line
; OPERATOR; div; ; write `/`
; OPERATOR; mod rem; ; write `%`
; VALUE; -; ; numbers have no sign: less than 0 there is nothing, and `0 - 1` is 4,294,967,295
; OPERATOR; = != < <= > >=; ; one comparison has two sides: join two of them by `and`
; *; *; ; there is no power; a power of two is `1 << k`
; < >; =; ; `<=` and `>=` are written without a blank
; <; >; ; \"differs\" is `!=`
; ; !=; ; `!=` stands between the two that it compares
; INDEX; ,; ; this array has one index, and `]` follows it
; WHOLE; ,; ; one line makes one assignment
; WHOLE; ); ; this `)` closes nothing
; WHOLE; ]; ; this `]` closes nothing
; NAME; (; ; `{before}` has no arguments: an index stands in `[ ]`
; OPERATOR; NAME; :=; one line says one thing: what begins at `{here}` stands on a line of its own
; OPERATOR; NAME; ; an operator is missing between `{before}` and `{here}`, or a new line
; WHOLE; if while for else end const procs shared private code rule pardo to downto; ; `{here}` \
    cannot stand here: one line says one thing
; NIL; NUMBER; ; an assignment begins with a name, and `:=` follows it
; NIL; ( [; ; an assignment begins with a name, and `:=` follows it
; ; ...; ; `...` ends the start values of an array, and stands nowhere else
";

/// Characters that begin no token.
pub(crate) const BAD_SYMBOL: &str = "\
; ; {; ; a block has no braces: it goes from its first line to a line `end`
; ; }; ; a block has no braces: it ends with a line `end`
; ; #; ; a comment begins with `;`
; ; !; ; \"not\" is `= 0`, a comparison with 0; \"differs\" is `!=`
; ; ^; ; `1 << h` is a power of two, exclusive or is `xor`
; ; \"; ; there are no strings: values are numbers
; ; '; ; there are no strings: values are numbers
; ; .; ; there are no fractions and no fields: values are whole numbers
if while elsif for else; ; :; ; no `:` stands here: the line ends with its condition
; ; :; ; an assignment is `:=`, without a blank in it
; ; @; ; no `@` stands in a program
; ; ~; ; the complement of x is `4294967295 - x`
; ; ?; ; there is no `? :`; write an `if` with an `else`
; ; $; ; names have no `$`
; ; \\; ; a line cannot be continued: give a part of it a name by a private variable
";

/// Header lines that are wrong, missing or repeated.
pub(crate) const BAD_HEADER: &str = "\
pram; VERSION; ; ; this is a text of the machine: its first line says `pram`
pardo; VERSION; ; ; the language is `pardo 1`
; VERSION; ; ; a program begins with the line `pardo 1`, and a text of the machine with `pram 3`
; DECLARATION; private; ; the line `procs` comes before private variables: it says how many \
    there are of each
; DECLARATION; procs; ; the processors stand already: one line `procs` is enough
; DECLARATION; code; NIL; the line `procs` is missing before `code`: as in `procs i < 8`
code; code; ; ; `code` stands alone on its line
; DECLARATION; rule; ; the rule stands already, in the second line
; DECLARATION; int var let array uint unsigned double float long auto local; ; variables are \
    `shared NAME`, `shared NAME[C]` or `private NAME`
; DECLARATION; for while if else end; ; a line of code stands here, and the line `code` is \
    missing before it
; DECLARATION; NAME; := [; a line of code stands here, and the line `code` is missing before it
; TEXT; ; ; the line `code` is missing
";

/// Names that are not known.
pub(crate) const UNKNOWN_NAME: &str = "\
; ; elseif elif elsif; ; write `elsif`, and the condition after it
; ; endif endfor endwhile fi od done; ; a block ends with a line `end`
; ; then do begin; ; there is no `{here}`: a condition goes to the end of its line
; NIL; return break continue stop exit; ; there is no `{here}`: processors that are to rest \
    stay out by an `if`
; ; not; ; \"not x\" is `x = 0`
; ; true; ; \"true\" is 1
; ; false; ; \"false\" is 0
; ; mod rem; ; write `%`
; ; div; ; write `/`
; ; log log2 ln; ; `lg(n)` is the least k with 2^k at least n; n is a constant
; NIL; print printf write output; ; nothing is printed by a line: the answer tells all shared \
    arrays and scalars
; NIL; int var let auto uint local unsigned double float long array; ; variables are declared \
    before `code`, as `shared NAME`, `shared NAME[C]` or `private NAME`
; NIL; forall parallel parfor foreach all; ; all processors go through all lines already: \
    choose those of a line by an `if`
; NIL; repeat loop until; ; a loop is `for k = first to last`, or `while`
; NIL; ; (; there are no procedures, and nothing is named `{here}`
; ; pow power; (; there is no power; a power of two is `1 << k`
; ; ; (; there is no function `{here}`: there are `min`, `max` and `lg`
; ; pid tid rank id self me; ; the own number has the name that `procs` gives it
; ; inf infinity INF MAX maxint; ; the greatest number is 4294967295
; ; AND; ; \"and\" is `and`
; ; OR; ; \"or\" is `or`
";

/// Numbers out of limits.
pub(crate) const OUT_OF_LIMITS: &str = "\
; ; / %; ; a division by 0
procs; <; ; ; there are 1 to 65,536 processors
shared; [; ; ; an array has 1 to 1,048,576 places
; ; NUMBER; ; {here} is out of limits: numbers go from 0 to 4,294,967,295
private; =; ; ; a division by 0 for a processor
";
