//! Words of the command line, each with the command that they ask for.
use erm_command_line::{Command, command_of};
use std::alloc::{AllocError, Global};

// A command line of one word behind another.
fn words_of(alloc: Global, line: &str) -> Result<Vec<String>, AllocError> {
    let mut words = Vec::new(alloc);
    for word in line.split(' ') {
        words.push(String::from_str(alloc, word)?)?;
    }
    Ok(words)
}

const LEAST: Option<Command> = Some(Command::Make {
    count: 1,
    sessions: 1,
    text: false,
});

const GREATEST: Option<Command> = Some(Command::Make {
    count: 100_000,
    sessions: 16,
    text: false,
});

const FIVE: Option<Command> = Some(Command::Make {
    count: 5,
    sessions: 2,
    text: false,
});

const FIVE_AS_TEXT: Option<Command> = Some(Command::Make {
    count: 5,
    sessions: 2,
    text: true,
});

static CASES: [(&str, Option<Command>); 52] = [
    ("erm run", Some(Command::Run)),
    (" run", Some(Command::Run)),
    ("run run", Some(Command::Run)),
    ("erm run --", Some(Command::Run)),
    ("erm threads", Some(Command::Threads)),
    ("erm threads --", Some(Command::Threads)),
    ("erm recover", Some(Command::Recover)),
    ("erm audit", Some(Command::Audit)),
    ("erm checkpoint", Some(Command::Checkpoint)),
    ("erm ship", Some(Command::Ship)),
    ("erm ship --", Some(Command::Ship)),
    ("erm follow", Some(Command::Follow)),
    ("erm replica", Some(Command::Replica)),
    ("erm make --count 1 --sessions 1", LEAST),
    ("erm make --sessions 16 --count 100000", GREATEST),
    ("erm make --text --count 5 --sessions 2", FIVE_AS_TEXT),
    ("erm make --count 5 --text --sessions 2", FIVE_AS_TEXT),
    ("erm make --sessions 2 --count 5 --text", FIVE_AS_TEXT),
    ("erm make --count=5 --sessions=2 --text", FIVE_AS_TEXT),
    ("erm make --count 5 --sessions 2 --", FIVE),
    ("", None),
    ("erm", None),
    ("run", None),
    ("erm ", None),
    ("erm frob", None),
    ("erm RUN", None),
    ("erm run run", None),
    ("erm ship erm-data", None),
    ("erm follow stream", None),
    ("erm replica follow", None),
    ("erm ship follow", None),
    ("erm run -- --", None),
    ("erm -- run", None),
    ("erm run --help", None),
    ("erm -h", None),
    ("erm help", None),
    ("erm --version", None),
    ("erm make", None),
    ("erm make --count 5", None),
    ("erm make --sessions 2 --text", None),
    ("erm make --count 0 --sessions 2", None),
    ("erm make --count 100001 --sessions 2", None),
    ("erm make --count 5 --sessions 17", None),
    ("erm make --count 05 --sessions 2", None),
    ("erm make --count +5 --sessions 2", None),
    ("erm make --count -5 --sessions 2", None),
    ("erm make --count 5 --count 5 --sessions 2", None),
    ("erm make --count 5 --sessions 2 --text --text", None),
    ("erm make --count 5 --sessions 2 --text=yes", None),
    ("erm make --count 5 --sessions 2 more", None),
    ("erm make --count --sessions 2", None),
    ("erm make 5 2", None),
];

// Whether the words of a line ask for this.
fn asks_for(alloc: Global, line: &str, command: &Option<Command>) -> Result<bool, AllocError> {
    let words = words_of(alloc, line)?;
    Ok(command_of(alloc, words.as_slice())? == *command)
}

#[test]
fn words_ask_for_commands(rt: HostRuntime) -> Result<(), AllocError> {
    for (line, command) in &CASES {
        assert!(rt; asks_for(rt.alloc(), *line, command)?, "{line}");
    }
    Ok(())
}
