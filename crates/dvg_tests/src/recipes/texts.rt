//! Texts of recipes that are read or refused: rows that a program in Python, written apart from this one, gave.

use crate::expecting::expect_same;
use dvg_labels::read_labels;
use dvg_recipe_text::{RecipeTextWhy, read_recipe};
use std::alloc::{AllocError, Global};
use std::process::Abort;

/// Labels at 980, 9B3 and 005; one stands at two words.
pub const LABELS: &[u8] =
    b"ROCK = $5300\nSAUCER = $5366\nLIST = $400A\nTWICE = $5300\nTWICE = $5302\n";

/// Texts, with `|` for each LF and `+` for the first two lines of most. Before each stand `ok` and the number of its recipe's pieces, or the
/// number of its refusal and that one's line.
const TEXTS: &str = "\
53 1 dvgrecipe 1
53 2 dvgrecipe 1|
51 1 dvgrecipe 2|
51 1  dvgrecipe 1|
51 1 |dvgrecipe 1|
ok 1 +halt|
ok 1 +halt||; end|  |
54 4 +halt|halt|
54 5 +halt| ; |x|
53 4 +halt|; no LF
53 3 +halt
51 2 dvgrecipe 1|halt|
51 2 dvgrecipe 1|list 001 000|
51 2 dvgrecipe 1|list 001 400|
51 3 dvgrecipe 1|list 001 1FF|list 1FF 3FF|
ok 1 dvgrecipe 1|list 001 1FF|list 201 3FF|halt|
ok 1 dvgrecipe 1|list 000 3FF|halt|
ok 2 +place 0 0 0 0 scale 0|halt|
51 3 +place 0 0 0 0 scale|halt|
51 3 +place 0 0 0 0 scale 16|
51 3 +place 0 0 0 0 scale 1 0|
51 3 +place 0 0 0 0 scale 1 1|
51 3 +place 1 0 0 0 scale 1|
51 3 +place 00 0 0 0 scale 1|
51 3 +place -0 0 0 0 scale 1|
ok 2 +place -2048 2047 -2048 2047 scale 1|halt|
51 3 +place -2049 0 0 0 scale 1|
51 3 +place  0 0 0 0 scale 1|
51 3 +place 0 0 0 0 scale 1 |
51 3 +\tplace 0 0 0 0 scale 1|
51 3 +place 0 0 0 0 scale 1\r|
ok 2 +    place 0 0 0 0 scale 1|halt|
ok 2 +call 800|halt|
51 3 +call 80|
52 3 +call ROCK|
ok 2 +shapes ROCK 800 801|call ROCK 802|halt|
52 4 +shapes ROCK 800|shapes ROCK 801|
51 3 +shapes ABC 800|
52 3 +shapes ROCK STONE|
51 4 +call 800|shapes ROCK 800|
51 3 +shapes ROCK|
51 3 +call 80a|
51 3 +call|
ok 3 +words F872 9000 F000|halt|
51 3 +words 9000|
51 3 +words B000|
51 3 +words D000|
51 3 +words E300|
ok 3 +words A000 0000 C800|halt|
51 3 +words f872|
51 3 +words|
ok 2 +vctr 9 x 0 1 y -1 0 bright 0 15|halt|
51 3 +vctr 10 x 0 1 y -1 0 bright 0 15|
51 3 +vctr 9 x 0 1024 y -1 0 bright 0 15|
ok 2 +vctr 9 x 0 1 y -1 0 bright 0 15 to 0 1023 0 1023|halt|
51 3 +svec 3 x 0 1 y -1 0 bright 0 15 to 0 1023 0 1023|
ok 2 +svec 3 x -3 3 y -3 3 bright 0 15|halt|
51 3 +svec 4 x -3 3 y -3 3 bright 0 15|
51 3 +svec 3 x -4 3 y -3 3 bright 0 15|
51 4 +repeat 0 1|halt|
51 4 +repeat 0 1|end|
51 3 +repeat 0 0|
51 3 +repeat 2 1|
51 3 +repeat 0 1024|
ok 2 +repeat 0 1023|call 800|end|halt|
ok 3 +either|call 800|or|call 801|end|halt|
51 4 +either|or|
51 3 +or|
51 3 +end|
51 5 +repeat 0 1|call 800|or|
ok 2 +either|call 800|end|halt|
51 3 +jump 300 3FF|
ok 2 dvgrecipe 1|list 001 1FF|jump 200 3FF|halt|
51 4 dvgrecipe 1|list 001 1FF|repeat 0 1|jump 200 3FF|
51 3 dvgrecipe 1|list 001 1FF|jump 1FF 3FF|
53 6 +call 800|repeat 0 1|call 800|
51 10 dvgrecipe 1|list 000 000|list 001 001|list 002 002|list 003 003|list 004 004|list 005 005|list 006 006|list 007 007|list 008 008|
51 3 +words C800 A000|
51 3 +words F000 9000|halt|
51 3 +words A000|halt|
51 3 +words C800 B000|halt|
ok 2 +words 0000 0000|halt|
ok 5 +words A800 0800 9FFF FFFF FFFF CFFF|halt|
51 3 +words F8720|
ok 2 +shapes A 800|shapes B A 801 A|call B 802 801|halt|
52 4 +shapes A 800| call B|
ok 2 +shapes A 800 800|call A A|halt|
51 3 +shapes A 80|
52 3 +shapes A A|
51 3 +shapes 1A 800|
ok 1 +shapes A_9 800|halt|
ok 2 +shapes bad 800|call bad|halt|
51 3 +shapes A-B 800|
ok 2 +call 800 801|halt|
51 3 +call  800|
51 3 +call 800 |
ok 2 +place 0 0 0 0 scale 0 1 2 3 4 5 6 7 8 9 10 11 12 13 14 15|halt|
51 3 +place 0 0 0 0 scale 01|
51 3 +place 0 0 0 0 scales 1|
51 3 +place 0 2048 0 0 scale 1|
51 3 +place 0 0 0 2048 scale 1|
51 3 +place 0 0 1 0 scale 1|
51 3 +place -5 -6 0 0 scale 1|
51 3 +place - 0 0 0 scale 1|
51 3 +place +1 1 0 0 scale 1|
ok 2 +vctr 9 x -1023 1023 y -1023 1023 bright 0 15|halt|
51 3 +vctr 9 x -1024 0 y 0 0 bright 0 15|
51 3 +vctr 9 x 0 0 y 0 1024 bright 0 15|
51 3 +vctr 9 x 0 0 y 0 0 bright 0 16|
51 3 +vctr 9 x 0 0 y 0 0 bright 2 1|
51 3 +vctr 9 y 0 0 x 0 0 bright 0 1|
51 3 +vctr 9 x 0 0 y 0 0 bright 0|
51 3 +vctr 9 x 0 0 y 0 0 bright 0 1 0|
ok 2 +svec 0 x -3 -3 y 3 3 bright 15 15|halt|
51 3 +svec 0 x 0 0 y 0 4 bright 0 0|
51 3 +svec 0 x 1 0 y 0 0 bright 0 0|
ok 2 +repeat 1023 1023|call 800|end|halt|
51 3 +repeat 1 1 1|
51 3 +repeat 1|
51 3 +end 1|
51 3 +either 1|
51 3 +halt 1|
51 5 +either|call 800|or 1|
51 6 +either|call 800|or|end|
51 4 +either|end|
51 4 +either|halt|
51 3 +list 001 3FF|
51 4 +shapes A 800|list 001 3FF|
54 4 +halt|end|
51 4 +halt|\t|
ok 3 dvgrecipe 1|list 000 000|jump 001 001|jump 002 3FF|halt|
51 3 dvgrecipe 1|list 000 000|jump 002 001|
51 3 dvgrecipe 1|list 000 000|jump 001 400|
51 3 dvgrecipe 1|list 000 000|jump 001 001 1|
51 5 dvgrecipe 1|list 000 000|jump 001 001|call 800|jump 001 002|
51 4 dvgrecipe 1|list 000 000|either|jump 001 001|
ok 4 dvgrecipe 1|list 000 000|repeat 1 2|call 800|end|jump 001 001|call 801|halt|
51 2 dvgrecipe 1|list 000 000 |
51 2 dvgrecipe 1|list 00a 00B|
51 2 dvgrecipe 1|list 0000 001|
51 2 dvgrecipe 1|list 000|
51 2 dvgrecipe 1|shapes A 800|
ok 1 dvgrecipe 1|list 000 000|list 001 001|list 002 002|list 003 003|list 004 004|list 005 005|list 006 006|list 007 007|halt|
51 1 dvgrecipe 1 |
51 1 dvgrecipe 1\r|
51 1 |
51 1 ; dvgrecipe 1|
51 4 +halt|x\t|
53 4 +halt|x";

/// Texts with what stands there more than once: `{a*196}` is `a` so many times, `^` a line of 38 words, and `?` a byte that is no UTF-8.
const REPEATED: &str = "\
53 1
ok 1 +; {a*196}|halt|
ok 1 +; {a*197}|halt|
55 3 +; {a*198}|halt|
55 3 +{x*300}
ok 2 +{repeat 0 1|*16}call 800{|end*16}|halt|
55 19 +{repeat 0 1|*17}
ok 1 +{;|*4093}halt|
55 4097 +{;|*4094}halt|
ok 4067 +{^*107}halt|
55 110 +{^*108}halt|
51 3 +?|
ok 1 +shapes {a*80} 800|halt|
51 3 +shapes {a*81} 800|
51 3 +place {9*20} 0 0 0 scale 1|
55 35 +{either|call 800|*17}
ok 2 +{either|*16}call 800{|end*16}|halt|
51 19 +{repeat 0 1|*16}repeat 0 0|
55 4 +halt|{x*200}|
55 4 +halt|{x*200}
51 3 +call|{x*200}
55 4 +|{x*200}|
55 1 {x*200}
53 1 {x*199}
55 1 {x*200}|
ok 4096 +{^*107}words{ F000*29}|halt|
55 111 +{^*107}words{ F000*30}|halt|
51 110 +{^*107}words{ F000*34} B000|
52 111 +{^*107}words{ F000*30}|call NONE|
55 111 dvgrecipe 1|list 000 000|{^*107}words{ F000*30}|jump 001 001|
53 4097 +{;|*4094}
53 4097 +{;|*4094}x
51 4096 +{;|*4093}x|
55 4097 +{;|*4095}
51 3 +{?*199}|
55 3 +{?*200}|
55 4097 +{;|*4094}\t|
55 4097 +halt{|;*4093}|x|
55 4 +halt|{\t*200}
ok 402 +call 800{|repeat 0 2|repeat 1 2|call 801|end|either|call 802|or|words 9000 F000|call 803|end|end*100}|halt|";

/// Appends what a piece of a spelling stands for.
fn push_piece(text: &mut Vec<u8>, piece: &str) -> Result<(), AllocError> {
    for byte in piece.as_bytes() {
        match *byte {
            b'|' => text.push(b'\n')?,
            b'?' => text.push(0x80)?,
            b'^' => {
                text.extend_from_slice(b"words")?;
                for _ in 0..38 {
                    text.extend_from_slice(b" F000")?;
                }
                text.push(b'\n')?;
            }
            byte => text.push(byte)?,
        }
    }
    Ok(())
}

/// Appends a piece as often as there stands behind it.
fn push_repeated(rt: &impl Abort, text: &mut Vec<u8>, repeated: &str) {
    let (piece, times) = repeated.split_once('*').expect(rt, "a piece and a count");
    for _ in 0..times.parse::<u16>().expect(rt, "a count") {
        push_piece(text, piece).expect(rt, "memory for the text");
    }
}

/// The text of a spelling.
pub fn text_of(rt: &impl Abort, alloc: Global, spelling: &str) -> Vec<u8> {
    let (first, behind) = match spelling.strip_prefix("+") {
        Some(behind) => ("dvgrecipe 1|list 001 3FF|", behind),
        None => ("", spelling),
    };
    let mut text = Vec::new(alloc);
    push_piece(&mut text, first).expect(rt, "memory for the text");
    for piece in behind.split('{') {
        let behind = match piece.split_once('}') {
            Some((repeated, behind)) => {
                push_repeated(rt, &mut text, repeated);
                behind
            }
            None => piece,
        };
        push_piece(&mut text, behind).expect(rt, "memory for the text");
    }
    text
}

/// What is answered of a text, in words.
fn told(alloc: Global, text: &[u8]) -> Result<String, AllocError> {
    match read_recipe(alloc, text, None) {
        Ok(read) => format!(in alloc; "ok {}", read.lines.len()),
        Err(fault) => format!(in alloc; "{} {}", fault.number(), fault.line),
    }
}

/// Stops the test unless each text of a table is answered as its row says.
fn expect_answers(rt: &impl Abort, alloc: Global, table: &str) {
    for row in table.lines() {
        let (first, rest) = row.split_once(' ').expect(rt, "a row");
        let (second, spelling) = rest.split_once(' ').unwrap_or((rest, ""));
        let text = text_of(rt, alloc, spelling);
        let told = told(alloc, &text).expect(rt, "memory for a line");
        let want = told.split_once(' ');
        expect_same(rt, &want, &Some((first, second)), &row);
    }
}

#[test]
fn answers_texts(rt: HostRuntime) {
    expect_answers(&rt, rt.alloc(), TEXTS);
}

#[test]
fn answers_repeated(rt: HostRuntime) {
    expect_answers(&rt, rt.alloc(), REPEATED);
}

/// A text whose second name is that of a shape above.
const NAMED_TWICE: &str = "+shapes ROCK ROCK|shapes ROCK 800|";

/// Texts that name labels of `LABELS`, and the line and the reason of their refusal.
const NAMING: &[(&str, Option<(u32, RecipeTextWhy)>)] = &[
    ("+call ROCK LIST|halt|", None),
    ("+call TWICE|halt|", Some((3, RecipeTextWhy::Several))),
    ("+call NONE|halt|", Some((3, RecipeTextWhy::Undefined))),
    ("+shapes TWICE 800|call TWICE|halt|", None),
    (NAMED_TWICE, Some((4, RecipeTextWhy::DefinedTwice))),
];

#[test]
fn names_labels(rt: HostRuntime) {
    let labels = read_labels(rt.alloc(), LABELS).expect(&rt, "labels");
    for (spelling, want) in NAMING {
        let text = text_of(&rt, rt.alloc(), spelling);
        let fault = read_recipe(rt.alloc(), &text, Some(&labels)).err();
        let refused = fault.map(|fault| (fault.line, fault.why));
        expect_same(&rt, &refused, want, spelling);
    }
}
