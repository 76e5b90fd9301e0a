//! Slips in programs: where each is told, and by which words.
use crate::table::expect;
use pardo_explain::{Diagnosis, Look, diagnose, notes, push_diagnosis};
use std::alloc::Global;
use std::str;
use std::test::Fail;

/// Where a diagnosis says that a text is wrong; and all that it says, where that has not these
/// words.
pub fn said(alloc: Global, words: &str, text: &str) -> Result<String, Fail> {
    let Some((_, found)) = diagnose(alloc, text.as_bytes())? else {
        return Ok(String::from_str(alloc, "a program")?);
    };
    spot_of(alloc, words, &found)
}

/// The same of the first note on a text.
pub fn noted(alloc: Global, words: &str, text: &str) -> Result<String, Fail> {
    let notes = notes(alloc, text.as_bytes())?;
    match notes.first() {
        Some(note) => spot_of(alloc, words, note),
        None => Ok(String::from_str(alloc, "nothing")?),
    }
}

fn spot_of(alloc: Global, words: &str, found: &Diagnosis) -> Result<String, Fail> {
    let sentence = str::from_utf8(found.sentence.as_slice())?;
    let (line, column) = (found.line, found.column);
    let spot = format!(in alloc; "{line}:{column}")?;
    if sentence.contains(words) {
        Ok(spot)
    } else {
        Ok(format!(in alloc; "{spot} {sentence}")?)
    }
}

// The words, the text, and the line and the column.
const SLIPS: &str = "\
$ slip spot: pardo 1~rule common~const n = 4~procs i < n~shared A[n]~shared B[n]~shared total~\
    private x~code~
an assignment is `:=` : x = 1 -> 10:3
an assignment is `:=` : x = 1 ; é -> 10:3
but for its comments : x := é ; é -> 10:6
a comment is UTF-8, without control characters : x := 1 ; éé\x07 -> 10:12
an assignment is `:=` : A[i] = x -> 10:6
compares with `=` : if x := 1~end -> 10:6
compares with `=` : while total := 1~end -> 10:13
the `if` of line 10 has no `end` : if x = 1~x := 2~ -> 12:1
the `for` of line 10 has no `end` : for k = 0 to 3~if x = 1~x := 2~end~ -> 14:1
`elsif` : if x = 1~else if x = 2~end -> 11:6
`elsif` : if x~elseif x = 2~end -> 11:1
`elsif` : if x~elif x = 2~end -> 11:1
stands in `[ ]` : x := A(i) -> 10:6
stands in `[ ]` : A(i) := x -> 10:1
no braces : if x = 1 { -> 10:10
no braces : } -> 10:1
a comment begins with `;` : x := 1 // one -> 10:9
a comment begins with `;` : // one -> 10:1
a comment begins with `;` : x := 1 # one -> 10:8
equality is one `=` : if x == 1~end -> 10:7
`and` : if x && total~end -> 10:7
`or` : if x || total~end -> 10:7
write `x := x + 1` : x++ -> 10:2
write `x := x + ..` : x += 1 -> 10:3
write `A[i] := A[i] - 1` : A[i]-- -> 10:5
`for k = first to last` : for k in 0 to 3~end -> 10:7
`for k = first to last` : for (int k = 0; k < n; k++) -> 10:5
`to` or `downto` is missing : for k = 0, 3~end -> 10:10
`to` or `downto` is missing : for k = 0~end -> 10:10
here it is `=` : for k := 0 to 3~end -> 10:7
there is `total` : totl := 1 -> 10:1
there is `total` : x := Total -> 10:6
one line says one thing : x := 1 x := 2 -> 10:8
nothing is named `qqqq` : x := qqqq -> 10:6
the same for all processors : for k = 0 to x~end -> 10:14
let an `if` within the loop : while x > 0~end -> 10:7
into a shared scalar : while A[0]~end -> 10:7
use a `while` : for k = 0 to total~end -> 10:14
one `end` is too many : end -> 10:1
the innermost open block is the `while` : while total~else~end -> 11:1
stands already : if x~else~elsif x~end -> 12:1
stands already : if x~elsif 1~else~else~end -> 13:1
exclusive or is `xor` : x := 2 ^ 3 -> 10:8
no `then` : if x = 1 then~end -> 10:10
ends with a line `end` : endif -> 10:1
is `x = 0` : if not x~end -> 10:4
`= 0` : if !x~end -> 10:4
no sign : x := -1 -> 10:6
`and` : if 0 < x < 3~end -> 10:10
stands in `[ ]` : x := A -> 10:6
has no index : x := x[1] -> 10:6
a constant : n := 3 -> 10:1
the own number : i := 3 -> 10:1
an operator or `)` : x := (1 + 2 -> 10:12
a number : x := -> 10:5
a number : assert -> 10:7
compares with `=` : assert x := 1 -> 10:10
an operator : x := 1 2 -> 10:8
`:=` : x: = 1 -> 10:2
an assignment is `:=` : x <- 1 -> 10:3
`lg(n)` : x := log(n) -> 10:6
no function : x := abs(n) -> 10:6
no `return` : return -> 10:1
write `%` : x := x mod 2 -> 10:8
nothing is printed : print x -> 10:1
no power : x := 2 ** 3 -> 10:9
declared already, in line 8 : for x = 0 to 3~end -> 10:5
no fractions : x := 1.5 -> 10:7
32 brackets : x := {34 (}1 -> 10:39
`if` : x := x ? 1 : 2 -> 10:8
stands alone : end if -> 10:5
no line of code :  -> 10:1
all processors : forall i~end -> 10:1
names are declared before `code` : private y -> 10:1
a new line : x := i A[2] := 2 -> 10:8
$ slip spot: pardo 1~rule crew~procs i < 4~shared A[4]~shared B[min(2, 3), 4]~private x~code~
has two indices : x := B[i] -> 8:9
its two indices stand in `[ ]` : x := B -> 8:6
one index : x := A[i, i] -> 8:9
an operator or `,` : x := B[i := 2 -> 8:10
an operator or `]` : B[A[i], i, i] := x -> 8:10
$ slip spot
another language : #include <stdio.h>~int main() {} -> 1:1
another language : def main():~  pass -> 1:11
another language : import sys~ -> 1:1
text of the machine : pram 3~ -> 1:1
`pardo 1` : pardo 2~ -> 1:1
`rule common` : pardo 1~procs i < 3 -> 2:1
`rule common` : pardo 1~rule erew -> 2:6
`code` is missing : pardo 1~rule crew~procs i < 3~A[i] := 1 -> 4:1
`procs` comes before : pardo 1~rule crew~private x -> 3:1
variables are : pardo 1~rule crew~int x -> 3:1
for processor 0 : pardo 1~rule crew~procs i < 4~private y = 1 / i -> 4:13
`, ...` fills : pardo 1~rule crew~shared A[4] = 1, 2 -> 3:15
1 to 65,536 processors : pardo 1~rule crew~procs i < 70000 -> 3:11
line `code` : pardo 1~rule crew~procs i < 4~ -> 4:1
byte order mark : \u{feff}pardo 1~ -> 1:1
a division by 0 : pardo 1~rule crew~const m = 4 / 0 -> 3:13
1 to 1,048,576 places : pardo 1~rule crew~shared A[0] -> 3:10
more values than places : pardo 1~rule crew~shared A[1] = 1, 2, ... -> 3:15
more than 1,048,576 cells : pardo 1~rule crew~shared A[1048000]~shared B[600] -> 4:1
numbers go from 0 : pardo 1~rule crew~const n = 4294967296 -> 3:11
`=` or the end of the line : pardo 1~rule crew~shared A[2] 1 -> 3:13
an operator, `,` or the end of the line : pardo 1~rule crew~shared A[2] = 1 2 -> 3:17
closes nothing : pardo 1~rule crew~procs i < 4~shared s~code~s := 1) -> 6:7
a new name : pardo 1~rule crew~const = 4 -> 3:7
an operator, `,` or `]` : pardo 1~rule crew~shared A[2 2] -> 3:12
an operator or `]` : pardo 1~rule crew~shared A[2, 2, 2] -> 3:14
$ note: pardo 1~rule common~procs i < 4~shared A[4]~private x~code~
`i` is shifted by `x` : x := i << x + 1 -> 7:8
`1` is shifted by `x` : A[i - 1 << x] := 2 -> 7:9
`i & 3` is shifted by `x` : x := i & 3 << x -> 7:12
`A[i]` is shifted by `(x + 1)` : x := A[i] >> (x + 1) | 1 -> 7:11
`i` is shifted by `x` : if x = min(i << x * 2, 3) ; << ~end -> 7:14
x := (i << x) + 1~A[i - (1 << x)] := 2 * i << x~if i + 1 < 1 << x~end -> nothing
`i & 4` stands together : x := i & 4 - 1 -> 7:8
`i & (1 << x)` stands together : x := i & (1 << x) - 1 -> 7:8
`1 & i` stands together : x := 4 - 1 & i -> 7:12
x := i & (4 - 1)~x := i * 2 & 3~if i & 1 = 0~end -> nothing
never true : if x - 4 < 0~end -> 7:10
always true : if x >= 0 and i = 1~end -> 7:6
never true : x := min(1, (0 > x) + 2) -> 7:16
always true : while 0 <= 2~end -> 7:9
if x < 0 + 1~end~x := A[0] > 0~x := 10 > x -> nothing
a bound of this loop is 4294967295 : for k = 3 to lg(1) - 1~end -> 7:1
is 4294967294 : for j = 0 to 3~  for k = 0 - 2 to j~  end~end -> 8:3
is 4294967295 : for k = lg(1) - 1 downto 0~end -> 7:1
for k = lg(2) - 1 to 3~end~for k = 0 - 2 to 0 - 1~end -> nothing
";

#[test]
fn slips_are_told_where_they_are(rt: HostRuntime) -> Result<(), Fail> {
    expect(&rt, rt.alloc(), SLIPS)
}

const TEXT: &[u8] =
    b"pardo 1\nrule crew\nprocs i < 3\nprivate x\ncode\n\tx = \x1b1 ; \xc3\xa9t\xc3\xa9 \r\n";

const TOLD: [(Look, &str); 2] = [
    (
        Look::Plain,
        "prog.pardo:6:6: a character that is not allowed: a program is ASCII, but for its comments
    \tx = ?1 ; été
    \t    ^
",
    ),
    (
        Look::Coloured,
        "\x1b[1mprog.pardo:6:6: \x1b[0ma character that is not allowed: a program is ASCII, but \
        for its comments
    \tx = ?1 ; été
    \t    \x1b[31m^\x1b[0m
",
    ),
];

#[test]
fn a_diagnosis_is_printed(rt: HostRuntime) -> Result<(), Fail> {
    for (look, wanted) in TOLD {
        let mut told = Vec::new(rt.alloc());
        if let Some((_, found)) = diagnose(rt.alloc(), TEXT)? {
            push_diagnosis(&mut told, look, b"prog.pardo", &found)?;
        }
        let told = str::from_utf8(told.as_slice())?;
        assert!(rt; told == wanted, "{told}");
    }
    Ok(())
}
