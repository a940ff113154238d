//! The one spelling of a recipe's text: rows that a program in Python, written apart from this one, gave.

use crate::expecting::{expect, expect_same};
use crate::recipes::texts::{LABELS, text_of};
use dvg_labels::read_labels;
use dvg_recipe_text::{RecipeTextFault, RecipeTextWhy, print_recipe, read_recipe};
use std::alloc::Global;
use std::process::Abort;

/// Texts that name labels of `LABELS`, each before its one spelling, both as those of [`texts`](crate::recipes::texts) are written.
const SPELLINGS: &str = "\
dvgrecipe 1|; A game of rocks over examples/arcade.rom. It has two lists: one is shown while the other is written.|list 001 1FF|list 201 3FF|shapes DIGIT 8B4 8B5 8B9 8C1 8C8 8CF 8D0 8D8 8DD 8E5|shapes SHIP 8FD 904 911 918 925 92C 939 940 94D 952 95B 960 969 96E 977 97C|; SCORE at 48, 976, and HIGH SCORE at 600, 976, both at scale 1|words A3D0 1030 C9CA C8EC|repeat 1 6|  call DIGIT|end|words A3D0 1258 C9CF C8EC|repeat 1 6|  call DIGIT|end|; the ships that are left, each 24 places further to the right; the shots below are led to by dark moves|words A3AC 0034 C8FD|repeat 0 4|  words 9000 0018 C8FD|end|repeat 0 27|  place 0 1023 0 1023 scale 0 1 2|  call 985 994 9A4|end|repeat 0 1|  place 0 1023 0 1023 scale 1|  call SHIP|  place 0 1023 0 1023 scale 0|  words 9000 F000|  repeat 0 3|    vctr 9 x -1023 1023 y -1023 1023 bright 0 0|    words 9000 F000|  end|end|repeat 0 1|  place 0 1023 0 1023 scale 0 1|  call 9B3|end|call 9EF|halt|
dvgrecipe 1|list 001 1FF|list 201 3FF|shapes DIGIT 8B4 8B5 8B9 8C1 8C8 8CF 8D0 8D8 8DD 8E5|shapes SHIP 8FD 904 911 918 925 92C 939 940 94D 952 95B 960 969 96E 977 97C|words A3D0 1030 C9CA C8EC|repeat 1 6|  call DIGIT|end|words A3D0 1258 C9CF C8EC|repeat 1 6|  call DIGIT|end|words A3AC 0034 C8FD|repeat 0 4|  words 9000 0018 C8FD|end|repeat 0 27|  place 0 1023 0 1023 scale 0 1 2|  call 985 994 9A4|end|repeat 0 1|  place 0 1023 0 1023 scale 1|  call SHIP|  place 0 1023 0 1023 scale 0|  words 9000 F000|  repeat 0 3|    vctr 9 x -1023 1023 y -1023 1023 bright 0 0|    words 9000 F000|  end|end|repeat 0 1|  place 0 1023 0 1023 scale 0 1|  call 9B3|end|call 9EF|halt|

dvgrecipe 1|; A small game over examples/homebrew.rom that keeps all that it draws on the screen.|list 001 3FF|; the ground, and the title at 384, 800|call 83C|words A320 3180 C839|repeat 0 12|  either|    ; a large rock reaches 64 places, a small one 32|    place 64 959 64 959 scale 2|  or|    place 32 991 32 991 scale 1|  end|  call 816|end|; the ship, with its flame or without|repeat 0 1|  place 18 1005 40 995 scale 1|  call 800 80D|end|repeat 0 4|  place 0 1023 0 1023 scale 0|  words 9000 F000|end|; the ships that are left|repeat 0 1|  words A3C0 0020 C800|  repeat 0 3|    words 9000 0018 C800|  end|end|halt|
+call 83C|words A320 3180 C839|repeat 0 12|  either|    place 64 959 64 959 scale 2|  or|    place 32 991 32 991 scale 1|  end|  call 816|end|repeat 0 1|  place 18 1005 40 995 scale 1|  call 800 80D|end|repeat 0 4|  place 0 1023 0 1023 scale 0|  words 9000 F000|end|repeat 0 1|  words A3C0 0020 C800|  repeat 0 3|    words 9000 0018 C800|  end|end|halt|

dvgrecipe 1|; A page of text over examples/arcade.rom: lines of up to 20 letters, and 2 rows of headings.|list 000 3FF|shapes LETTER 800 808 815 81B 823 82B 832 83B 842 849 84F 855 85A 860 865 86B 872 87B 883 88A 890 896 89B 8A2 8A7 8AE|shapes DIGIT 8B4 8B5 8B9 8C1 8C8 8CF 8D0 8D8 8DD 8E5|shapes CHAR LETTER DIGIT 8EC|; headings at scale 2: a letter takes 48 places, and 16 of them 768|repeat 0 2|  place 0 251 700 900 scale 2|  repeat 1 16|    call CHAR|  end|end|; at scale 1 a letter takes 24 places|repeat 0 20|  place 0 540 0 660 scale 1|  repeat 1 20|    call CHAR|  end|end|; a line drawn below the text, of whatever length|repeat 0 1|  place 0 0 0 1000 scale 0|  vctr 9 x 0 1023 y 0 0 bright 7 7|end|call 9EF|halt|
dvgrecipe 1|list 000 3FF|shapes LETTER 800 808 815 81B 823 82B 832 83B 842 849 84F 855 85A 860 865 86B 872 87B 883 88A 890 896 89B 8A2 8A7 8AE|shapes DIGIT 8B4 8B5 8B9 8C1 8C8 8CF 8D0 8D8 8DD 8E5|shapes CHAR LETTER DIGIT 8EC|repeat 0 2|  place 0 251 700 900 scale 2|  repeat 1 16|    call CHAR|  end|end|repeat 0 20|  place 0 540 0 660 scale 1|  repeat 1 20|    call CHAR|  end|end|repeat 0 1|  place 0 0 0 1000 scale 0|  vctr 9 x 0 1023 y 0 0 bright 7 7|end|call 9EF|halt|

+shapes ROCK 980 990|shapes ALL 9A0 ROCK 9B0 980|call ROCK|place -5 6 -2048 2047 scale 0 2 15|svec 3 x -3 2 y -1 0 bright 0 15|vctr 0 x -1023 5 y 4 1023 bright 7 7|call ALL|halt|
+shapes ROCK 980 990|shapes ALL 9A0 ROCK 9B0 980|call ROCK|place -5 6 -2048 2047 scale 0 2 15|svec 3 x -3 2 y -1 0 bright 0 15|vctr 0 x -1023 5 y 4 1023 bright 7 7|call ALL|halt|

+either|  call 800|or|  call 801|  call 802|or|  repeat 2 3|    call 803|  end|or|  call 804|  either|    call 805|  or|    call 806|  end|end|halt|
+either|  call 800|or|  call 801|  call 802|or|  repeat 2 3|    call 803|  end|or|  call 804|  either|    call 805|  or|    call 806|  end|end|halt|

dvgrecipe 1|list 000 000|list 002 0FF|call 800|jump 100 1FF|repeat 1 4|  call 801|  repeat 0 9|    call 802|    call 803|  end|  call 804|end|jump 201 201|jump 300 3FF|call 805|; behind|halt|
dvgrecipe 1|list 000 000|list 002 0FF|call 800|jump 100 1FF|repeat 1 4|  call 801|  repeat 0 9|    call 802|    call 803|  end|  call 804|end|jump 201 201|jump 300 3FF|call 805|halt|

+      shapes ROCK ROCK SAUCER 800| ; a remark||call ROCK SAUCER| either|call SAUCER SAUCER 801|   or|        repeat 0 1|call LIST|end| end|halt|  ;||
+shapes ROCK 980 9B3 800|call ROCK 9B3|either|  call 9B3 9B3 801|or|  repeat 0 1|    call 005|  end|end|halt|";

/// Stops the test unless a text is printed in this spelling, and that one as it is.
fn expect_spelling(rt: &impl Abort, alloc: Global, text: &[u8], want: &[u8]) {
    let labels = read_labels(alloc, LABELS).expect(rt, "labels");
    let once = print_recipe(alloc, text, Some(&labels)).expect(rt, "a recipe");
    expect(rt, once.as_slice() == want, &text);
    let twice = print_recipe(alloc, &once, None).expect(rt, "a recipe again");
    expect(rt, twice.as_slice() == want, &(text, "again"));
}

#[test]
fn spells_once(rt: HostRuntime) {
    for row in SPELLINGS.split("\n\n") {
        let (text, want) = row.split_once('\n').expect(&rt, "a row");
        let text = text_of(&rt, rt.alloc(), text);
        let want = text_of(&rt, rt.alloc(), want);
        expect_spelling(&rt, rt.alloc(), &text, &want);
    }
}

/// The fault of printing a text with a line of 196 bytes in so many blocks.
fn long_line_fault(rt: &impl Abort, alloc: Global, blocks: usize) -> Option<RecipeTextFault> {
    let spelling = format!(in alloc;
        "+{{repeat 0 1|*{blocks}}}call{{ 800*48}}|{{end|*{blocks}}}halt|"
    );
    let text = text_of(rt, alloc, &spelling.expect(rt, "memory for the text"));
    assert!(rt; read_recipe(alloc, &text, None).is_ok());
    print_recipe(alloc, &text, None).err()
}

#[test]
fn prints_no_longer_line(rt: HostRuntime) {
    let fault = RecipeTextFault {
        line: 5,
        why: RecipeTextWhy::LineTooLong,
    };
    for (blocks, want) in [(1, None), (2, Some(fault))] {
        let told = long_line_fault(&rt, rt.alloc(), blocks);
        expect_same(&rt, &told, &want, &blocks);
    }
}
