//! Which words make a line, what is printed of others, and files as sources.
use crate::table::expect;
use command_answers::Input;
use command_line::{Given, read_line};
use pram_streams::{FromRead, Reason, Source, TakeFault, take};
use std::alloc::{AllocError, Global};
use std::io::ErrorKind;
use std::process::Abort;
use std::test::Fail;

// Words, and what they ask, or the kind of their error.
const LINES: &str = "\
pramx check f -> Asked { line: Line { file: \"f\", plan: None, ask: Alone(Check { model: None }) \
    }, random: None, explain: false }
pramx check --explain f -> Asked { line: Line { file: \"f\", plan: None, ask: Alone(Check { \
    model: None }) }, random: None, explain: true }
pramx check f --set n=3 --set A=@g -> Asked { line: Line { file: \"f\", plan: None, ask: \
    Alone(Check { model: None }) }, random: None, explain: false } [\"n=3\", \"A=@g\"]
pramx compile f -> Asked { line: Line { file: \"f\", plan: None, ask: Alone(Compile) }, random: None, explain: \
    false }
pramx plain f -> Asked { line: Line { file: \"f\", plan: None, ask: Alone(Plain { style: Style { \
    csv: false, why: false }, model: None }) }, random: None, explain: false }
pramx plain --why f -> Asked { line: Line { file: \"f\", plan: None, ask: Alone(Plain { style: \
    Style { csv: false, why: true }, model: None }) }, random: None, explain: false }
pramx plain f --csv -> Asked { line: Line { file: \"f\", plan: None, ask: Alone(Plain { style: \
    Style { csv: true, why: false }, model: None }) }, random: None, explain: false }
pramx cost f -> Asked { line: Line { file: \"f\", plan: None, ask: Alone(Cost { lines: false, \
    model: None }) }, random: None, explain: false }
pramx cost --lines f -> Asked { line: Line { file: \"f\", plan: None, ask: Alone(Cost { lines: \
    true, model: None }) }, random: None, explain: false }
pramx check f --model EREW -> Asked { line: Line { file: \"f\", plan: None, ask: Alone(Check { \
    model: Some(Erew) }) }, random: None, explain: false }
pramx plain --model=common f --csv -> Asked { line: Line { file: \"f\", plan: None, ask: \
    Alone(Plain { style: Style { csv: true, why: false }, model: Some(CommonCrcw) }) }, random: None, explain: \
    false }
pramx cost f --model crew -> Asked { line: Line { file: \"f\", plan: None, ask: Alone(Cost { \
    lines: false, model: Some(Crew) }) }, random: None, explain: false }
pramx sweep f --set n=3,4 --set A=1 -> Asked { line: Line { file: \"f\", plan: None, ask: \
    Alone(Sweep) }, random: None, explain: false } [\"n=3,4\", \"A=1\"]
pramx steps f -> Asked { line: Line { file: \"f\", plan: None, ask: Alone(Steps { from: 1, to: \
    4294967295, alone: false }) }, random: None, explain: false }
pramx steps f --from 101 -> Asked { line: Line { file: \"f\", plan: None, ask: Alone(Steps { \
    from: 101, to: 4294967295, alone: false }) }, random: None, explain: false }
pramx steps --to 4294967295 f --from=9 -> Asked { line: Line { file: \"f\", plan: None, ask: \
    Alone(Steps { from: 9, to: 4294967295, alone: false }) }, random: None, explain: false }
pramx steps --csv f -> Asked { line: Line { file: \"f\", plan: None, ask: Alone(Steps { from: 1, \
    to: 4294967295, alone: true }) }, random: None, explain: false }
pramx trace f -> Asked { line: Line { file: \"f\", plan: None, ask: Alone(Trace { alone: false }) \
    }, random: None, explain: false }
pramx trace f --csv -> Asked { line: Line { file: \"f\", plan: None, ask: Alone(Trace { alone: \
    true }) }, random: None, explain: false }
pramx run job.txt --workers 2 --plan p.csv --progress -> Asked { line: Line { file: \"job.txt\", \
    plan: Some(\"p.csv\"), ask: OnThreads(Run(AskRun { manner: Manner { workers: Workers { \
    count: 2 }, progress: Lines, pace: None, block: None }, style: Style { csv: false, why: \
    false } })) }, random: None, explain: false }
pramx run job.txt --workers 2 --progress on a terminal -> Asked { line: Line { file: \
    \"job.txt\", plan: None, ask: OnThreads(Run(AskRun { manner: Manner { workers: Workers { \
    count: 2 }, progress: OneLine, pace: None, block: None }, style: Style { csv: false, why: \
    false } })) }, random: None, explain: false }
pramx run f --workers 1 --pace 1000000 -> Asked { line: Line { file: \"f\", plan: None, ask: \
    OnThreads(Run(AskRun { manner: Manner { workers: Workers { count: 1 }, progress: Silent, \
    pace: Some(1000000), block: None }, style: Style { csv: false, why: false } })) }, random: None, explain: \
    false }
pramx run --workers=64 --block=1 job.txt --why -> Asked { line: Line { file: \"job.txt\", plan: \
    None, ask: OnThreads(Run(AskRun { manner: Manner { workers: Workers { count: 64 }, progress: \
    Silent, pace: None, block: Some(Block { exponent: 0 }) }, style: Style { csv: false, why: \
    true } })) }, random: None, explain: false }
pramx watch job.txt --workers 3 --cells 7,0,7 --rounds 1000000 --pace=0 --block 64 -> Asked { \
    line: Line { file: \"job.txt\", plan: None, ask: OnThreads(Watch(AskWatch { manner: Manner { \
    workers: Workers { count: 3 }, progress: Silent, pace: Some(0), block: Some(Block { \
    exponent: 6 }) }, cells: CellList { text: \"7,0,7\" }, rounds: 1000000 })) }, random: None, explain: false \
    }
pramx replay job.txt --workers 1 -> Asked { line: Line { file: \"job.txt\", plan: None, ask: \
    Alone(Replay { workers: Workers { count: 1 }, alone: false }) }, random: None, explain: false }
pramx replay f --workers 2 --random 4294967295 --csv -> Asked { line: Line { file: \"f\", plan: \
    None, ask: Alone(Replay { workers: Workers { count: 2 }, alone: true }) }, \
    random: Some(4294967295), explain: false }
pramx judge e a -> Judging { exercise: \"e\", files: [\"a\"], explain: false }
pramx judge e a - b --explain -> Judging { exercise: \"e\", files: [\"a\", \"-\", \"b\"], explain: \
    true }
pramx -> MissingSubcommand
pramx walk f -> InvalidSubcommand
pramx plain -> MissingRequiredArgument
pramx plain f g -> UnknownArgument
pramx compile f --why -> UnknownArgument
pramx run job.txt -> MissingRequiredArgument
pramx run job.txt --workers 0 -> ValueValidation
pramx replay job.txt --workers 65 -> ValueValidation
pramx replay f --workers 1 --random 4294967296 -> ValueValidation
pramx replay f --workers 1 --random seven -> ValueValidation
pramx replay f --workers 1 --plan p --random 7 -> ValueValidation
pramx run f --workers 1 --random 7 -> UnknownArgument
pramx steps f --from 0 -> ValueValidation
pramx steps f --to last -> ValueValidation
pramx steps f --from 3 --to 2 -> ValueValidation
pramx sweep f -> MissingRequiredArgument
pramx judge e -> MissingRequiredArgument
pramx judge e a --set n=3 -> UnknownArgument
pramx check f --model PRAM -> ValueValidation
pramx run f --workers 1 --model EREW -> UnknownArgument
pramx watch f --workers 1 --rounds 1 -> MissingRequiredArgument
pramx watch f --workers 1 --rounds 1 --cells 1,3x -> ValueValidation
pramx watch f --workers 1 --rounds 1 --cells 1,,2 -> ValueValidation
pramx watch f --workers 1 --rounds 0 --cells 1 -> ValueValidation
pramx watch f --workers 1 --rounds 1000001 --cells 1 -> ValueValidation
pramx run f --workers 1 --pace 1000001 -> ValueValidation
pramx replay f --workers 1 --pace 1 -> UnknownArgument
pramx run f --workers 1 --block 0 -> ValueValidation
pramx run f --workers 1 --block 48 -> ValueValidation
pramx run f --workers 1 --block 128 -> ValueValidation
pramx replay f --workers 1 --block 1 -> UnknownArgument
pramx watch f --workers 1 --rounds 1 --cells 1 --why -> UnknownArgument
pramx steps f --why -> UnknownArgument
pramx trace -> MissingRequiredArgument
pramx --version -> DisplayVersion
pramx --help -> DisplayHelp
pramx run --help -> DisplayHelp
";

// What words ask, or the kind of their error.
fn asked(alloc: Global, words: &str) -> Result<String, AllocError> {
    let on_terminal = words.strip_suffix(" on a terminal");
    let words: Vec<&str> = on_terminal.unwrap_or(words).split(' ').collect(alloc)?;
    match read_line(alloc, &words, on_terminal.is_some()) {
        Ok(Given::Line(asked, settings)) => {
            let told = format!(in alloc; "{asked:?}")?;
            if settings.is_empty() {
                return Ok(told);
            }
            format!(in alloc; "{told} {:?}", settings.as_slice())
        }
        Ok(Given::Judge(judging)) => format!(in alloc; "{judging:?}"),
        Err(error) => format!(in alloc; "{:?}", error.kind()),
    }
}

#[test]
fn words_make_a_line(rt: HostRuntime) -> Result<(), Fail> {
    for row in LINES.lines() {
        let (words, wanted) = row.split_once(" -> ").expect(&rt, row);
        let found = asked(rt.alloc(), words)?;
        assert!(rt; found.as_str() == wanted, "{row}: {found}");
    }
    Ok(())
}

// What is printed where words make no line. The program's files are not read.
const TEXTS: &str = "\
$ pramx --version
 | 0 pramx 0.9.0~
-- the help up to its examples
$ pramx --help
 | 0 Runs programs of a synchronous parallel machine with shared memory.~\
    ~Usage: pramx <COMMAND>~\
    ~Commands:\
    ~  check    Say whether a text spells a job, and how large it is\
    ~  compile  Print the job of a program as a text of the machine\
    ~  plain    Run a job on the plain machine\
    ~  cost     Say what the run of a job costs, and which model of the PRAM it needs\
    ~  sweep    Say what the runs of a program cost in which a name is set to one value each\
    ~  judge    Judge submissions by an exercise, and print a record for each\
    ~  steps    Run a job on the plain machine, and print what each processor asks for in each step\
    ~  trace    Run a program on the plain machine, and print its lines as they are made\
    ~  run      Run a job on threads\
    ~  watch    Run a job on threads, and read cells while they run\
    ~  replay   Run a job on one thread, and print each step\
    ~  help     Print this message or the help of the given subcommand(s)~\
    ~Options:\
    ~  -h, --help     Print help\
    ~  -V, --version  Print version~\
    ~{}
$ pramx watch job --workers 1 --rounds 1 --cells 1,3x
 | 4 error: invalid value '1,3x' for '--cells <C,C,..>': cells are numbers or places, \
    with commas between~\
    ~Usage: pramx watch [OPTIONS] --workers <W> --cells <C,C,..> --rounds <R> <FILE>~\
    ~For more information, try '--help'.~
$ pramx run job --workers 1 --block 48
 | 4 error: invalid value '48' for '--block <G>': 48 is not a power of two~\
    ~Usage: pramx run [OPTIONS] --workers <W> <FILE>~\
    ~For more information, try '--help'.~
$ pramx replay job --workers 1 --random 4294967296
 | 4 error: invalid value '4294967296' for '--random <SEED>': 4294967296 is not in \
    0..=4294967295~\
    ~For more information, try '--help'.~
$ pramx replay job --workers 1 --random 7 --plan plan
 | 4 error: the argument '--plan <P>' cannot be used with '--random <SEED>'~\
    ~Usage: pramx replay [OPTIONS] --workers <W> <FILE>~\
    ~For more information, try '--help'.~
$ pramx steps job --from 3 --to 2
 | 4 error: invalid value '2' for '--to <B>': there is no step from 3 to 2~\
    ~Usage: pramx steps [OPTIONS] <FILE>~\
    ~For more information, try '--help'.~
";

#[test]
fn texts_of_errors_and_requests(rt: HostRuntime) -> Result<(), Fail> {
    expect(&rt, rt.alloc(), TEXTS)
}

// A file that could not be opened fails, and says why.
fn expect_closed<R: AllocGlobal + Abort>(rt: &R, kind: ErrorKind, reason: Reason) {
    let mut closed = FromRead::new(Input::<&[u8]>::Closed(kind));
    assert!(rt; take(rt.alloc(), &mut closed).err() == Some(TakeFault::Device));
    assert!(rt; closed.reason() == reason);
}

#[test]
fn reads_of_a_closed_file_fail(rt: HostRuntime) -> Result<(), Fail> {
    expect_closed(&rt, ErrorKind::NotFound, Reason::Missing);
    expect_closed(&rt, ErrorKind::PermissionDenied, Reason::Denied);
    expect_closed(&rt, ErrorKind::IsADirectory, Reason::Folder);
    expect_closed(&rt, ErrorKind::Other, Reason::Unknown);
    let text = "seven".as_bytes();
    let taken = take(rt.alloc(), &mut FromRead::new(Input::File(text)))?;
    assert!(rt; taken.as_slice() == text);
    Ok(())
}
