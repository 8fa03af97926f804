//! Words of the command line and what they spell.

use bridge_engine::{
    Found, options_of, words_give_values_in_one_way, words_spell_options_in_one_way,
};
use std::alloc::{AllocError, Global};
use std::test::Fail;

// No options.
const NOTHING: Found<'static> = Found {
    from: None,
    to: None,
    week: None,
    leap: None,
    date: None,
    seed: None,
    sats: None,
};

// The words, which are written with `|` between them.
fn words_of(alloc: Global, text: &str) -> Result<Vec<String>, AllocError> {
    let mut words = Vec::new(alloc);
    for word in text.split('|') {
        words.push(String::from_str(alloc, word)?)?;
    }
    Ok(words)
}

// The words, and the options that they spell.
struct WordsRow {
    words: &'static str,
    options: Option<Found<'static>>,
}

const FORMS: Found<'static> = Found {
    from: Some("stream"),
    to: Some("frames"),
    ..NOTHING
};

static WORDS: [WordsRow; 32] = [
    WordsRow {
        words: "--from|stream|--to|frames",
        options: Some(FORMS),
    },
    WordsRow {
        words: "--to=frames|--from|stream",
        options: Some(FORMS),
    },
    WordsRow {
        words: "--from=stream|--to=frames",
        options: Some(FORMS),
    },
    WordsRow {
        words: "--week|2000|--leap=18",
        options: Some(Found {
            week: Some("2000"),
            leap: Some("18"),
            ..NOTHING
        }),
    },
    WordsRow {
        words: "--date|20250101 000000 UTC",
        options: Some(Found {
            date: Some("20250101 000000 UTC"),
            ..NOTHING
        }),
    },
    WordsRow {
        words: "--seed=7|--sats|2",
        options: Some(Found {
            seed: Some("7"),
            sats: Some("2"),
            ..NOTHING
        }),
    },
    WordsRow {
        words: "--from=a=b",
        options: Some(Found {
            from: Some("a=b"),
            ..NOTHING
        }),
    },
    WordsRow {
        words: "--from=",
        options: Some(Found {
            from: Some(""),
            ..NOTHING
        }),
    },
    WordsRow {
        words: "--from|",
        options: Some(Found {
            from: Some(""),
            ..NOTHING
        }),
    },
    WordsRow {
        words: "--from=-1",
        options: Some(Found {
            from: Some("-1"),
            ..NOTHING
        }),
    },
    WordsRow {
        words: "--from=--",
        options: Some(Found {
            from: Some("--"),
            ..NOTHING
        }),
    },
    WordsRow {
        words: "--from|é",
        options: Some(Found {
            from: Some("é"),
            ..NOTHING
        }),
    },
    WordsRow {
        words: "--from|-1",
        options: None,
    },
    WordsRow {
        words: "--from|-",
        options: None,
    },
    WordsRow {
        words: "--from|--to",
        options: None,
    },
    WordsRow {
        words: "--from|a|--from|a",
        options: None,
    },
    WordsRow {
        words: "--from=a|--from|b",
        options: None,
    },
    WordsRow {
        words: "--from",
        options: None,
    },
    WordsRow {
        words: "--help",
        options: None,
    },
    WordsRow {
        words: "-h",
        options: None,
    },
    WordsRow {
        words: "--version",
        options: None,
    },
    WordsRow {
        words: "--",
        options: None,
    },
    WordsRow {
        words: "--from|stream|--|--to|frames",
        options: None,
    },
    WordsRow {
        words: "from|stream",
        options: None,
    },
    WordsRow {
        words: "",
        options: None,
    },
    WordsRow {
        words: "---from|a",
        options: None,
    },
    WordsRow {
        words: "--fro=a",
        options: None,
    },
    WordsRow {
        words: "--From=a",
        options: None,
    },
    WordsRow {
        words: "-f|a",
        options: None,
    },
    WordsRow {
        words: "--=a",
        options: None,
    },
    WordsRow {
        words: "-é",
        options: None,
    },
    WordsRow {
        words: "--from|a|b",
        options: None,
    },
];

// Whether the words spell these options.
fn spell(alloc: Global, row: &WordsRow) -> Result<bool, AllocError> {
    let words = words_of(alloc, row.words)?;
    Ok(options_of(alloc, &words)? == row.options)
}

#[test]
fn words_spell_options(rt: HostRuntime) -> Result<(), Fail> {
    words_spell_options_in_one_way();
    words_give_values_in_one_way();
    for row in &WORDS {
        assert!(rt; spell(rt.alloc(), row)?, "{}", row.words);
    }
    let none = Vec::new(rt.alloc());
    assert!(rt; options_of(rt.alloc(), &none)? == Some(NOTHING));
    Ok(())
}
