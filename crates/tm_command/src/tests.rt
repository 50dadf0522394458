//! What no clause says: with ample memory the words are read, and other words are refused.
use super::*;
use std::alloc::{AllocError, Global};
use std::test::Fail;

/// Words, and what they name.
const COMMANDS: [(&[&str], Command<'static>); 3] = [
    (
        &["--volume", "v", "--store", "s", "--script", "p"],
        Command {
            volume: "v",
            store: "s",
            script: "p",
            create: None,
        },
    ),
    (
        &[
            "--script", "p", "--create", "1", "--store", "b c", "--volume", "a/b",
        ],
        Command {
            volume: "a/b",
            store: "b c",
            script: "p",
            create: Some(1),
        },
    ),
    (
        &[
            "--volume", "v", "--store", "s", "--script", "s", "--create", "262144",
        ],
        Command {
            volume: "v",
            store: "s",
            script: "s",
            create: Some(262_144),
        },
    ),
];

/// Words that are not the command.
const OTHERS: [&[&str]; 9] = [
    &[],
    &["--help"],
    &["--volume", "v", "--store", "s"],
    &["--volume", "v", "--store", "s", "--script"],
    &["--volume", "v", "--store", "s", "--script", "p", "more"],
    &["--volume", "v", "--store", "v", "--script", "p"],
    &[
        "--volume", "v", "--store", "s", "--script", "p", "--create", "0",
    ],
    &[
        "--volume", "v", "--store", "s", "--script", "p", "--create", "262145",
    ],
    &[
        "--volume", "v", "--store", "s", "--script", "p", "--create", "8 ",
    ],
];

fn words(alloc: Global, texts: &[&str]) -> Result<Vec<String>, AllocError> {
    let mut words = Vec::new(alloc);
    for text in texts {
        words.push(String::from_str(alloc, text)?)?;
    }
    Ok(words)
}

#[test]
fn the_command_is_read(rt: HostRuntime) -> Result<(), Fail> {
    for (texts, command) in COMMANDS {
        let words = words(rt.alloc(), texts)?;
        assert_eq!(rt; read_words(rt.alloc(), &words), Ok(command));
    }
    Ok(())
}

#[test]
fn other_words_are_refused(rt: HostRuntime) -> Result<(), Fail> {
    for texts in OTHERS {
        let words = words(rt.alloc(), texts)?;
        assert_eq!(rt; read_words(rt.alloc(), &words), Err(WordsError::Usage));
    }
    Ok(())
}
