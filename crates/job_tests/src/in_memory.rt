//! Steps over a folder in memory.

use crate::steps::{Broken, Seven};
use std::alloc::{AllocError, Global};
use std::test::Fail;
use whole_file::{FileFault, Folder, Given, MemFolder, Named, StepFault, part_of, put_output};

// How a step ended.
#[derive(Clone, Copy, PartialEq, Eq)]
enum End {
    Done,
    NoInput,
    PartThere,
    Refused,
    Other,
}

// How a step ended.
fn end_of(done: Result<Named<()>, StepFault<Broken>>) -> End {
    match done {
        Ok(_) => End::Done,
        Err(StepFault::Begin(FileFault::AlreadyThere)) => End::PartThere,
        Err(StepFault::Run(Broken::Refused, _)) => End::Refused,
        Err(_) => End::Other,
    }
}

// A file of a folder.
struct File {
    name: &'static str,
    bytes: &'static [u8],
}

// A step from one name to another, and how it ends.
struct Step {
    from: &'static str,
    name: &'static str,
    end: End,
}

// The files of a folder, the steps over it, which files are there behind them, and which are not.
struct Case {
    name: &'static str,
    files: &'static [File],
    steps: &'static [Step],
    there: &'static [File],
    absent: &'static [&'static str],
}

const DONE: Step = Step {
    from: "a.nav",
    name: "a.rnx",
    end: End::Done,
};

const PART_THERE: Step = Step {
    from: "a.nav",
    name: "a.rnx",
    end: End::PartThere,
};

const INPUT: File = File {
    name: "a.nav",
    bytes: b"one",
};

const OUTPUT: File = File {
    name: "a.rnx",
    bytes: b"seven b",
};

const OLD: File = File {
    name: "b.rnx",
    bytes: b"old",
};

const PART: File = File {
    name: "a.rnx.part",
    bytes: b"half",
};

static CASES: [Case; 4] = [
    Case {
        name: "the second of two files is refused",
        files: &[
            INPUT,
            File {
                name: "b.nav",
                bytes: b"?two",
            },
            OLD,
        ],
        steps: &[
            DONE,
            Step {
                from: "b.nav",
                name: "b.rnx",
                end: End::Refused,
            },
        ],
        there: &[OUTPUT, OLD],
        absent: &["a.rnx.part", "b.rnx.part"],
    },
    Case {
        name: "a file that is there is replaced",
        files: &[
            INPUT,
            File {
                name: "a.rnx",
                bytes: b"old",
            },
        ],
        steps: &[DONE],
        there: &[OUTPUT, INPUT],
        absent: &[],
    },
    Case {
        name: "a part that is there is kept",
        files: &[INPUT, PART],
        steps: &[PART_THERE],
        there: &[PART],
        absent: &["a.rnx"],
    },
    Case {
        name: "there is no input of that name",
        files: &[INPUT, PART],
        steps: &[
            PART_THERE,
            Step {
                from: "c.nav",
                name: "c.rnx",
                end: End::NoInput,
            },
        ],
        there: &[PART],
        absent: &["a.rnx"],
    },
];

// The end of a step over a folder.
fn end_in(alloc: Global, folder: &mut MemFolder, step: &Step) -> Result<End, AllocError> {
    let mut input = match folder.open(step.from) {
        Ok(input) => input,
        Err(FileFault::NotFound) => return Ok(End::NoInput),
        Err(_) => return Ok(End::Other),
    };
    let part = part_of(alloc, step.name)?;
    let mut name = Given::new(String::from_str(alloc, step.name)?);
    let done = put_output(folder, &mut Seven, &mut input, &mut name, part.as_str());
    Ok(end_of(done))
}

// Whether the steps over a folder end so.
fn end_so(alloc: Global, folder: &mut MemFolder, steps: &[Step]) -> Result<bool, AllocError> {
    let mut holds = true;
    for step in steps {
        holds = holds && end_in(alloc, folder, step)? == step.end;
    }
    Ok(holds)
}

// Whether a folder has these files.
fn has_all(folder: &MemFolder, files: &[File]) -> bool {
    let mut holds = true;
    for file in files {
        holds = holds && folder.get(file.name) == Some(file.bytes);
    }
    holds
}

// Whether a folder has no file of these names.
fn has_none(folder: &MemFolder, names: &[&str]) -> bool {
    let mut holds = true;
    for name in names {
        holds = holds && folder.get(name).is_none();
    }
    holds
}

// Whether the steps of a case end so, and leave these files.
fn holds(alloc: Global, case: &Case) -> Result<bool, AllocError> {
    let mut folder = MemFolder::new(alloc);
    for file in case.files {
        folder.put(file.name, file.bytes)?;
    }
    let is_ended = end_so(alloc, &mut folder, case.steps)?;
    Ok(is_ended && has_all(&folder, case.there) && has_none(&folder, case.absent))
}

#[test]
fn steps_over_a_folder_end_as_the_table_says(rt: HostRuntime) -> Result<(), Fail> {
    for case in &CASES {
        assert!(rt; holds(rt.alloc(), case)?, "{}", case.name);
    }
    Ok(())
}
