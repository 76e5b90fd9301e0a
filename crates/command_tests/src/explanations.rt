//! The sentence that explains a refusal.
use pram_commands::{
    Ask, AskAlone, Bytes, CommandFault, Console, Explanation, Line, Look, Reasons, Sources,
    Workers, serve,
};
use pram_streams::{Empty, IntoWrite, Reason};
use pram_text::TextKind;
use std::alloc::{AllocError, Global};
use std::rt::Clock;
use std::str;
use std::sync::Wait;
use std::test::Fail;
use std::thread::Threads;
use stop_plan::PlanKind;

const REPLAY: Line<'static> = Line {
    file: "sum.pram",
    plan: Some("-"),
    ask: Ask::Alone(AskAlone::Replay {
        workers: Workers { count: 2 },
        alone: false,
    }),
};

const FAULTS: [CommandFault; 9] = [
    CommandFault::Text {
        line: 7,
        kind: TextKind::UnknownInstruction,
    },
    CommandFault::Plan {
        row: 2,
        kind: PlanKind::AfterStop,
    },
    CommandFault::OutsideCell { cell: 9 },
    CommandFault::OutsideStep { step: 5 },
    CommandFault::JobDevice,
    CommandFault::PlanDevice,
    CommandFault::JobTooLarge,
    CommandFault::OutDevice,
    CommandFault::Memory,
];

const SENTENCES: &str = "\
sum.pram, line 7: no instruction stands here
standard input, row 2: an earlier row stops this worker
sum.pram: the job has no cell 9
sum.pram: the job has no step 5
sum.pram: there is no such file
standard input: it is a folder
sum.pram: it has more than 67,108,864 bytes
standard output takes no more
out of memory, or the system refused a thread
";

// Tells the sentence of a fault, below those of the faults before it.
fn tell(alloc: Global, fault: CommandFault, told: &mut String) -> Result<(), AllocError> {
    let explanation = Explanation {
        line: REPLAY,
        fault,
        reasons: Reasons {
            job: Reason::Missing,
            plan: Reason::Folder,
        },
        text: b"",
    };
    told.push_str(format!(in alloc; "{explanation}")?.as_str())
}

#[test]
fn each_fault_has_a_sentence(rt: HostRuntime) -> Result<(), Fail> {
    let mut told = String::new(rt.alloc());
    for fault in FAULTS {
        tell(rt.alloc(), fault, &mut told)?;
    }
    assert!(rt; told.as_str() == SENTENCES, "{told}");
    Ok(())
}

const LINE: &str = "text line=1 kind=BadHeader\n";

const EXPLAINED: &str = "\
text line=1 kind=BadHeader
job:1:1: a program begins with the line `pardo 1`, and a text of the machine with `pram 3`
    no job
    ^
";

const PROGRAM: &[u8] = b"pardo 1\nrule crew\nprocs i < 4\nprivate x\ncode\n  x = 1\n";

const SLIP: &str = "\
text line=6 kind=BadLine
job:6:5: an assignment is `:=`; `=` compares
      x = 1
        ^
";

const MEMORY: &str = "\
memory
out of memory, or the system refused a thread
";

// The status of a check that is explained, and how much room is left where it is told.
fn checked<R: AllocGlobal + Threads + Wait + Clock + Eprint + Sync>(
    rt: &R,
    job: &[u8],
    room: &mut [u8],
) -> (u8, usize) {
    let mut console = Console {
        out: IntoWrite::new(Vec::new(rt.alloc())),
        err: IntoWrite::new(room),
        is_terminal: false,
        explains: true,
        look: Look::Plain,
        notes: true,
    };
    let mut sources = Sources {
        job: Bytes::new(job),
        plan: Empty,
        text: None,
        unplanned: false,
    };
    let check = Line {
        file: "job",
        plan: None,
        ask: Ask::Alone(AskAlone::Check { model: None }),
    };
    let status = serve(rt, rt.alloc(), &check, &mut sources, &mut console);
    let Console { out, err, .. } = console;
    let left = err.into_inner().len();
    (
        if out.into_inner().is_empty() {
            status
        } else {
            0
        },
        left,
    )
}

// Where no growth is refused this says little: `tools/growths` refuses each in turn.
#[test]
fn refused_growths_are_explained_as_they_are_told(rt: HostRuntime) -> Result<(), Fail> {
    let mut room = [0u8; 256];
    let (status, left) = checked(&rt, b"no job\n", &mut room);
    let told = &room[..room.len().saturating_sub(left)];
    let is_promised = match status {
        2 => told == EXPLAINED.as_bytes() || told == LINE.as_bytes(),
        _ => status == 5 && told == MEMORY.as_bytes(),
    };
    assert!(rt; is_promised, "status {status}");
    let refused = u8::from(told != EXPLAINED.as_bytes());
    println!(rt; "refused={refused}")?;
    Ok(())
}

#[test]
fn a_program_is_explained_where_it_is_wrong(rt: HostRuntime) -> Result<(), Fail> {
    let mut room = [0u8; 256];
    let (status, left) = checked(&rt, PROGRAM, &mut room);
    let told = &room[..room.len().saturating_sub(left)];
    assert!(rt; status == 2 && told == SLIP.as_bytes());
    Ok(())
}

const SHIFTED: &[u8] = b"pardo 1\nrule crew\nprocs i < 4\nprivate x\ncode\n  x := i << x + 1\n";

const NOTE: &str = "\
job:6:10: note: here `i` is shifted by `x`: a shift binds as `*` does
      x := i << x + 1
             ^
";

#[test]
fn a_shift_is_explained_where_it_stands_beside_a_sum(rt: HostRuntime) -> Result<(), Fail> {
    let mut room = [0u8; 256];
    let (status, left) = checked(&rt, SHIFTED, &mut room);
    let told = &room[..room.len().saturating_sub(left)];
    assert!(rt; status == 0 && told == NOTE.as_bytes());
    Ok(())
}

// Lines of the machine, and where each is told to be wrong.
const WORDS: [(&str, &str); 8] = [
    ("frob r1", "8:1"),
    ("add r0 5 r9", "8:10"),
    ("add r0 A r1", "8:8"),
    ("ld r0 A r9", "8:9"),
    ("ld r9 A r0", "8:4"),
    ("ld r0 B r0", "8:7"),
    ("jmp none", "8:5"),
    ("set r0 4294967296", "8:8"),
];

#[test]
fn a_line_of_the_machine_is_explained_at_a_word(rt: HostRuntime) -> Result<(), Fail> {
    for (line, place) in WORDS {
        let job = format!(in rt.alloc();
            "pram 3\ncells 4\nprocs 2\nsteps 9\nrule crew\narray A 0 4\ncode\n{line}\n"
        )?;
        let mut room = [0u8; 256];
        let (_, left) = checked(&rt, job.as_bytes(), &mut room);
        let told = str::from_utf8(&room[..room.len().saturating_sub(left)])?;
        let wanted = format!(in rt.alloc(); "\njob:{place}: ")?;
        assert!(rt; told.contains(wanted.as_str()), "{told}");
    }
    Ok(())
}
