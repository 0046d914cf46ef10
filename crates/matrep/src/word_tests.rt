// What words say, and the first that offends.
use crate::tests::words_of;
use crate::words::{BadWord, Command, read_words};
use std::test::Fail;

// Words, each ended by a space, and the first place that offends.
const OFFENCES: [(&str, u32); 33] = [
    ("", 0),
    ("--help", 0),
    (" ", 0),
    ("solve", 1),
    ("solve field=6", 1),
    ("solve field=3 field=3", 2),
    ("solve nodes=5", 2),
    ("solve field=3 nodes=0", 2),
    ("solve field=3 nodes=200001", 2),
    ("solve field=3 split=5", 2),
    ("solve field=3 workers=0", 2),
    ("solve field=3 workers=65", 2),
    ("solve field=3 classes=all", 2),
    ("solve order=3", 1),
    ("check", 1),
    ("check field=03", 1),
    ("check field", 1),
    ("check field=3 nodes=5", 2),
    ("check field=3  ", 2),
    ("confirm field=1", 1),
    ("matroid field=10", 1),
    ("dual x", 1),
    ("dual field=2", 1),
    ("minor delete=1,2 contract=2", 2),
    ("minor contract=2 delete=1,2", 2),
    ("minor delete=2,1", 1),
    ("minor delete=", 1),
    ("minor delete=1,,2", 1),
    ("minor delete=64", 1),
    ("minor delete=1,1", 1),
    ("plane order=7", 1),
    ("plane", 1),
    ("plane order=5 order=5", 2),
];

#[test]
fn the_first_word_that_offends_is_named(rt: HostRuntime) -> Result<(), Fail> {
    for (text, word) in OFFENCES {
        let words = words_of(rt.alloc(), text)?;
        if read_words(&words) != Err(BadWord { word }) {
            return Err(text.into());
        }
    }
    Ok(())
}

// Words, and the command that they say.
const COMMANDS: [(&str, Command); 11] = [
    (
        "solve field=2",
        Command::Solve {
            q: 2,
            workers: 1,
            nodes: 20000,
            split: 0,
            orbits: false,
        },
    ),
    (
        "solve classes=auto split=4 nodes=200000 workers=64 field=9",
        Command::Solve {
            q: 9,
            workers: 64,
            nodes: 200000,
            split: 4,
            orbits: true,
        },
    ),
    (
        "solve classes=projective field=8 nodes=1",
        Command::Solve {
            q: 8,
            workers: 1,
            nodes: 1,
            split: 0,
            orbits: false,
        },
    ),
    ("check field=9", Command::Check { q: 9 }),
    ("confirm field=7", Command::Confirm { q: 7 }),
    ("matroid field=4", Command::MatroidOf { q: 4 }),
    ("dual", Command::Dual),
    (
        "minor",
        Command::Minor {
            delete: 0,
            contract: 0,
        },
    ),
    (
        "minor contract=0,5 delete=63",
        Command::Minor {
            delete: 1 << 63,
            contract: 33,
        },
    ),
    (
        "minor delete=0,1,2,31,32",
        Command::Minor {
            delete: 6442450951,
            contract: 0,
        },
    ),
    ("plane order=5", Command::Plane { q: 5 }),
];

#[test]
fn operands_say_a_command_in_any_order(rt: HostRuntime) -> Result<(), Fail> {
    for (text, command) in COMMANDS {
        let words = words_of(rt.alloc(), text)?;
        if read_words(&words) != Ok(command) {
            return Err(text.into());
        }
    }
    Ok(())
}
