//! The text of each rule, in the words of docs/RULES.md.

use crate::rules::Rule;

pub const ROM_LENGTH: Rule = Rule {
    number: 1,
    meaning: "the ROM has not exactly two bytes for each word address at which it lies: 2048 bytes at 800 to BFF, and 2 * (BBB - AAA + 1) at AAA to BBB",
    line: "refused 1",
    heading: "Shortest input",
    input: "an empty ROM file",
    cure: "dump the whole vector ROM, and nothing else; where it lies elsewhere, say so by `--rom`, or give a certificate for a ROM that lies there",
};

pub const FRAME_LENGTH: Rule = Rule {
    number: 2,
    meaning: "the frame is not 2 to 2048 bytes, or an odd number",
    line: "refused 2",
    heading: "Shortest input",
    input: "three empty files",
    cure: "save whole words from word 000 on, at most the 2048 bytes of vector RAM",
};

pub const CERT_FORM: Rule = Rule {
    number: 10,
    meaning: "the line is not of the form",
    line: "refused 10 certificate line 1",
    heading: "Shortest certificate",
    input: "one LF",
    cure: "spell each value as the grammar says; each line ends with LF alone; an entry's address is one of the ROM's; `rom 800 BFF` is spelled `dvgcert 1`",
};

pub const CERT_ORDER: Rule = Rule {
    number: 11,
    meaning: "the entry is out of order, or repeated",
    line: "refused 11 certificate line 3",
    heading: "Shortest certificate",
    input: "`dvgcert 1` LF, and twice the short entry with its LF",
    cure: "sort by address, then by key with `any` last; write none twice",
};

pub const CERT_COUNT: Rule = Rule {
    number: 12,
    meaning: "the number in the `done` line is not that of the entries",
    line: "refused 12 certificate line 2",
    heading: "Shortest certificate",
    input: "`dvgcert 1` LF `done 1` LF",
    cure: "write the number of entry lines",
};

pub const CERT_UNENDED: Rule = Rule {
    number: 13,
    meaning: "the text ends before a `done` line was taken",
    line: "refused 13 certificate line 1",
    heading: "Shortest certificate",
    input: "an empty file",
    cure: "the text was cut off, or its last LF is missing",
};

pub const CERT_TRAILING: Rule = Rule {
    number: 14,
    meaning: "a byte comes after the `done` line",
    line: "refused 14 certificate line 3",
    heading: "Shortest certificate",
    input: "`dvgcert 1` LF `done 0` LF, and any byte",
    cure: "end the file with the LF of the `done` line",
};

pub const CERT_TOO_LONG: Rule = Rule {
    number: 15,
    meaning: "the line has 200 bytes and no LF yet; or it is the 4097th entry",
    line: "refused 15 certificate line 1",
    heading: "Shortest certificate",
    input: "200 bytes `a`",
    cure: "look for a missing LF; leave out entries that nothing calls",
};

pub const CERT_MEMORY: Rule = Rule {
    number: 16,
    meaning: "there was no memory for the entry",
    line: "refused 16 certificate line L",
    heading: "Shortest certificate",
    input: "no file alone gets it: it comes at the LF of an entry",
    cure: "the text may be right: give the program more memory",
};

pub const CERT_WRITER: Rule = Rule {
    number: 17,
    meaning: "the writer of a certificate failed, or took no byte",
    line: "dvgcheck: cannot write",
    heading: "What gets it",
    input: "the library alone: the program answers 73",
    cure: "see why the writer fails",
};

pub const SHAPE_MISSING: Rule = Rule {
    number: 20,
    meaning: "a word of the item is outside the ROM",
    line: "refused 20 shape BFF/0 at BFF",
    heading: "Shortest input (words of the ROM; entry)",
    input: "zeros; address `BFF`",
    cure: "end the shape with RTSL, or with JMPL to another shape; see that the address is where the shape begins",
};

pub const SHAPE_ODD_LABS: Rule = Rule {
    number: 21,
    meaning: "an odd LABS: bit 11 or bit 10 of one of its words is set",
    line: "refused 21 shape 800/0 at 800",
    heading: "Shortest input (words of the ROM; entry)",
    input: "`A400`",
    cure: "give `--board`, where each LABS has twelve bits; or give the LABS places of 0 to 1023, which leave bits 11 and 10 of both words clear",
};

pub const SHAPE_HALT: Rule = Rule {
    number: 22,
    meaning: "HALT: it would end the whole picture",
    line: "refused 22 shape 800/0 at 800",
    heading: "Shortest input (words of the ROM; entry)",
    input: "`B000`",
    cure: "end the shape with RTSL",
};

pub const SHAPE_LOST_PLACE: Rule = Rule {
    number: 23,
    meaning: "at a lost place: a lit draw; or a call or tail jump whose entry has a box other than `none`",
    line: "refused 23 shape 800/any at 802",
    heading: "Shortest input (words of the ROM; entry)",
    input: "`0000 0000 F010`; key `any`, `words 2`",
    cure: "write entries for the scales that are used, in place of `any`, for this shape or for what it called before; or put a LABS before it",
};

pub const SHAPE_UNKNOWN_SCALE: Rule = Rule {
    number: 24,
    meaning: "a lit draw at unknown scale",
    line: "refused 24 shape 800/any at 800",
    heading: "Shortest input (words of the ROM; entry)",
    input: "`F010`; key `any`",
    cure: "write entries for the scales that are used, in place of `any`, for this shape or for what it called before; or put a LABS before it",
};

pub const SHAPE_OUTSIDE_WINDOW: Rule = Rule {
    number: 25,
    meaning: "at an absolute place: a lit draw starts or ends outside the window; or the box of the entry that a call or tail jump names, moved to this place, has a corner outside it",
    line: "refused 25 shape 800/0 at 802",
    heading: "Shortest input (words of the ROM; entry)",
    input: "`A000 0000 F510`; `words 2`",
    cure: "move the place of the LABS, or draw smaller; in a given certificate claim the least box for what is called; without `--clip`, give `--board --clip`, or a wider `--window` where it is smaller than the screen",
};

pub const SHAPE_NO_ENTRY: Rule = Rule {
    number: 26,
    meaning: "a call or tail jump that names no entry",
    line: "refused 26 shape 800/0 at 800",
    heading: "Shortest input (words of the ROM; entry)",
    input: "`C000`",
    cure: "add an entry for its target, at the scale that is known there or at `any`, as `dvgcheck make` does; only shapes in the ROM have entries",
};

pub const SHAPE_DEPTH: Rule = Rule {
    number: 27,
    meaning: "a call with one more than D of its entry over the claimed D, or a tail jump with D of its entry over it",
    line: "refused 27 shape 800/0 at 800",
    heading: "Shortest input (words of the ROM; entry)",
    input: "`C800`",
    cure: "claim the greater depth; over 3, take out a level of calls; a shape that calls itself is always refused",
};

pub const SHAPE_WORDS: Rule = Rule {
    number: 28,
    meaning: "the count after the item is over the claimed N",
    line: "refused 28 shape 800/0 at 800",
    heading: "Shortest input (words of the ROM; entry)",
    input: "zeros",
    cure: "claim the greater number of words; a shape that jumps to itself is always refused",
};

pub const SHAPE_END: Rule = Rule {
    number: 29,
    meaning: "the last item, and the place after it is not the claimed end",
    line: "refused 29 shape 800/0 at 800",
    heading: "Shortest input (words of the ROM; entry)",
    input: "`D000`",
    cure: "claim the end that the items show; `lost` only where it is lost",
};

pub const SHAPE_SCALE: Rule = Rule {
    number: 30,
    meaning: "the last item, and the scale after it is not the claimed S",
    line: "refused 30 shape 800/any at 802",
    heading: "Shortest input (words of the ROM; entry)",
    input: "`0000 0000 D000`; key `any`, `words 3`",
    cure: "claim the scale that is known at the end; `any` only where it is unknown",
};

pub const SHAPE_OUTSIDE_BOX: Rule = Rule {
    number: 31,
    meaning: "at a relative place: a lit draw starts or ends outside the claimed box; or the box of the entry that a call or tail jump names, moved to this place, has a corner outside it",
    line: "refused 31 shape 800/0 at 800",
    heading: "Shortest input (words of the ROM; entry)",
    input: "`F010`",
    cure: "claim a box that holds all that the shape lights while its place is relative",
};

pub const SHAPE_FEWER_WORDS: Rule = Rule {
    number: 32,
    meaning: "the last item, and the count after it is less than the claimed N",
    line: "refused 32 shape 800/0 at 800",
    heading: "Shortest input (words of the ROM; entry)",
    input: "`D000`; `end rel 0 0`, `words 2`",
    cure: "claim the count that the items show, as `dvgcheck make` does",
};

pub const SHAPE_LESS_DEPTH: Rule = Rule {
    number: 33,
    meaning: "the last item, and D is more than the greatest of one more than D of the called entries, D of the tail jump's entry, and 0",
    line: "refused 33 shape 800/0 at 800",
    heading: "Shortest input (words of the ROM; entry)",
    input: "`D000`; `end rel 0 0`, `depth 1`",
    cure: "claim that depth, as `dvgcheck make` does",
};

pub const FRAME_MISSING: Rule = Rule {
    number: 40,
    meaning: "a word of the item is outside the frame: the list runs past its end, or jumps out of it",
    line: "refused 40 frame at 000",
    heading: "Shortest input",
    input: "`0000`",
    cure: "end the list with HALT (`B000`); save enough of vector RAM; jump inside the frame only, and call what is in the ROM",
};

pub const FRAME_ODD_LABS: Rule = Rule {
    number: 41,
    meaning: "an odd LABS: bit 11 or bit 10 of one of its words is set",
    line: "refused 41 frame at 000",
    heading: "Shortest input",
    input: "`A400 0000`",
    cure: "give `--board`, where each LABS has twelve bits; or give the LABS places of 0 to 1023, which leave bits 11 and 10 of both words clear",
};

pub const FRAME_RETURN: Rule = Rule {
    number: 42,
    meaning: "RTSL in a frame, with no call to return from",
    line: "refused 42 frame at 000",
    heading: "Shortest input",
    input: "`D000`",
    cure: "end the frame with HALT",
};

pub const FRAME_BACKWARD_JUMP: Rule = Rule {
    number: 43,
    meaning: "a jump to its own address or a lower one, which may never end",
    line: "refused 43 frame at 000",
    heading: "Shortest input",
    input: "`E000`",
    cure: "jump forward only",
};

pub const FRAME_LOST_PLACE: Rule = Rule {
    number: 44,
    meaning: "at a lost place: a lit draw; or a call whose entry has a box other than `none`",
    line: "refused 44 frame at 000",
    heading: "Shortest input",
    input: "`F010`",
    cure: "begin the frame with a LABS: the beam may be anywhere; put one after a call that loses the place",
};

pub const FRAME_UNKNOWN_SCALE: Rule = Rule {
    number: 45,
    meaning: "a lit draw at unknown scale",
    line: "refused 45 frame at 003",
    heading: "Shortest input",
    input: "frame `A000 0000 C800 F010`, ROM `D000`, entry `shape 800 any end rel 0 0 box none depth 0 words 1 scale any`",
    cure: "put a LABS after the call; or write an entry for the scale at the call, in place of `any`",
};

pub const FRAME_OUTSIDE_WINDOW: Rule = Rule {
    number: 46,
    meaning: "a lit draw starts or ends outside the window; or the box of the entry that a call names, moved to the place of the call, has a corner outside it",
    line: "refused 46 frame at 002",
    heading: "Shortest input",
    input: "`A000 0000 F510`",
    cure: "move the place, or draw a smaller size or scale; see that a called shape is drawn as you mean it; in a given certificate claim the least box; without `--clip`, give `--board --clip`, or a wider `--window` where it is smaller than the screen; dark moves may leave it",
};

pub const FRAME_NO_ENTRY: Rule = Rule {
    number: 47,
    meaning: "a call that names no entry",
    line: "refused 47 frame at 000",
    heading: "Shortest input",
    input: "`C800`",
    cure: "add an entry for its target, at the scale that is known there, or name both as a root of `dvgcheck make`; put a LABS before it, where the scale is unknown",
};

pub const FRAME_OVER_BUDGET: Rule = Rule {
    number: 48,
    meaning: "the count after the item is over the budget",
    line: "refused 48 frame at 000",
    heading: "Shortest input",
    input: "`0000 0000` with `--budget 1`",
    cure: "shorten the list, or allow more words by `--budget`; in a given certificate claim the least words",
};

pub const BUDGET_RANGE: Rule = Rule {
    number: 49,
    meaning: "the budget is not 1 to 1,000,000",
    line: "refused 49",
    heading: "What gets it",
    input: "the library alone: the program takes such a budget as a fault of the command line",
    cure: "allow 1 to 1,000,000 words",
};

pub const INDEX_MEMORY: Rule = Rule {
    number: 50,
    meaning: "the certificate's text was taken, the ROM has the length that the text gives it, and there was no memory for the index of the entries, by which calls are looked up",
    line: "refused 50",
    heading: "What gets it",
    input: "no file alone",
    cure: "give the program more memory: shapes and frame were not judged",
};

pub const RECIPE_FORM: Rule = Rule {
    number: 51,
    meaning: "no line of this form may stand here",
    line: "refused 51 recipe line 1",
    heading: "Shortest recipe",
    input: "one LF",
    cure: "spell the line as the grammar says: one space between two words, numbers as in certificates, addresses of three hexadecimal digits, ranges from the lesser to the greater; close each block by `end`; each line ends with LF alone",
};

pub const RECIPE_NAME: Rule = Rule {
    number: 52,
    meaning: "a name is not defined above, is defined twice, or is that of labels at several words",
    line: "refused 52 recipe line 3",
    heading: "Shortest recipe",
    input: "`dvgrecipe 1` LF `list 000 3FF` LF `call A` LF",
    cure: "define the name by `shapes` above, once, or give the file of labels that has it by `--labels`",
};

pub const RECIPE_UNENDED: Rule = Rule {
    number: 53,
    meaning: "the text ends before the line `halt`, or within a line",
    line: "refused 53 recipe line 1",
    heading: "Shortest recipe",
    input: "an empty file",
    cure: "the text was cut off, or its last LF is missing; close each block by `end`, and end the recipe with `halt`",
};

pub const RECIPE_TRAILING: Rule = Rule {
    number: 54,
    meaning: "something stands behind `halt`",
    line: "refused 54 recipe line 4",
    heading: "Shortest recipe",
    input: "`dvgrecipe 1` LF `list 000 3FF` LF `halt` LF `a` LF",
    cure: "end the text with the LF of `halt`; comments go above it",
};

pub const RECIPE_TOO_LONG: Rule = Rule {
    number: 55,
    meaning: "the line has 200 bytes and no LF yet, or would have when printed; or it is the 4,097th; or its block is in sixteen others; or a piece of it is the 4,097th; or, with repeats written out, what may stand up to it is too much",
    line: "refused 55 recipe line 1",
    heading: "Shortest recipe",
    input: "200 bytes `a`",
    cure: "look for a missing LF; spell several addresses by a name of `shapes`; allow fewer turns; split the recipe where its frames differ",
};

pub const RECIPE_MEMORY: Rule = Rule {
    number: 56,
    meaning: "there was no memory for the line",
    line: "refused 56 recipe line L",
    heading: "Shortest recipe",
    input: "no file alone",
    cure: "the text may be right: give the program more memory",
};

pub const RECIPE_AREA: Rule = Rule {
    number: 57,
    meaning: "the longest list, jumps and HALT among its words, passes the end of its area at this line",
    line: "refused 57 recipe line 4",
    heading: "Shortest recipe",
    input: "`dvgrecipe 1` LF `list 000 000` LF `call 800` LF `halt` LF",
    cure: "let the area reach further, where the program leaves room there; or allow fewer turns: one `repeat` of an `either` where objects share slots",
};

pub const FRAME_SLOW: Rule = Rule {
    number: 58,
    meaning: "the frame keeps all rules, but the clocks counted up to and with this item, and what it calls, are more than `--within` allows",
    line: "refused 58 frame at 000",
    heading: "Shortest frame",
    input: "`B000` with `--board --within 0.001`",
    cure: "draw in less time: use greater sizes at a smaller scale, and go to a place by LABS, not by a dark draw; or allow more; put a LABS before dark draws at unknown scale, for each of which 1,024 clocks are counted besides its states",
};

pub const RECIPE_STUCK: Rule = Rule {
    number: 59,
    meaning: "from some place that may be known before this line, no size that it allows leads into the rectangle behind `to`; or the place is lost there, or the scale unknown",
    line: "refused 59 recipe line 3",
    heading: "Shortest recipe",
    input: "`dvgrecipe 1` LF `list 000 3FF` LF `vctr 0 x 0 0 y 0 0 bright 0 0 to 0 0 0 0` LF `halt` LF",
    cure: "allow sizes that lead there from each place that may be known, or a wider rectangle; let fewer places come there; put a `place` before it, where the place is lost or the scale unknown",
};

pub const MAKER_NO_SHAPE: Rule = Rule {
    number: 60,
    meaning: "the item is missing, odd or HALT, or it lights something at a lost place or at unknown scale; or a root has this address, outside the ROM",
    line: "refused 60 at C00",
    heading: "Shortest input (words of the ROM; roots)",
    input: "zeros; `800/0`",
    cure: "end each shape with RTSL, or with JMPL to another shape; call what is in the ROM; put a LABS before the call, or name the scales at which the shape is called, in place of `any`",
};

pub const MAKER_DEPTH: Rule = Rule {
    number: 61,
    meaning: "a shape needs itself, or its calls go more than three deep",
    line: "refused 61",
    heading: "Shortest input (words of the ROM; roots)",
    input: "`C800`; `800/0`",
    cure: "take the shape out of itself; take out a level of calls",
};

pub const MAKER_TOO_LARGE: Rule = Rule {
    number: 62,
    meaning: "a shape takes more than 1,000,000 words, or there are more than 4,096 entries",
    line: "refused 62",
    heading: "Shortest input (words of the ROM; roots)",
    input: "ten words `C80A`, nine `C813`, nine `C81C`, zeros, and `D000` at BFE; `800/0`",
    cure: "draw less in one call; name fewer roots, or `any` in place of several scales where nothing is lit before a LABS",
};

pub const MAKER_MEMORY: Rule = Rule {
    number: 63,
    meaning: "the maker had no memory",
    line: "dvgcheck: out of memory",
    heading: "What gets it",
    input: "no file alone",
    cure: "give the program more memory",
};

pub const READ_ROM: Rule = Rule {
    number: 70,
    meaning: "the ROM can't be opened or read",
    line: "dvgcheck: cannot read the ROM",
    heading: "What gets it",
    input: "a name that no file has",
    cure: "see that the file is there, that you may read it, and that it is no folder",
};

pub const READ_FRAME: Rule = Rule {
    number: 71,
    meaning: "the frame or the recipe can't be opened or read",
    line: "dvgcheck: cannot read the frame",
    heading: "What gets it",
    input: "a name that no file has",
    cure: "see that the file is there, that you may read it, and that it is no folder",
};

pub const READ_CERT: Rule = Rule {
    number: 72,
    meaning: "the certificate can't be opened or read",
    line: "dvgcheck: cannot read the certificate",
    heading: "What gets it",
    input: "a name that no file has",
    cure: "see that the file is there, that you may read it, and that it is no folder",
};

pub const WRITE: Rule = Rule {
    number: 73,
    meaning: "the output can't be written",
    line: "dvgcheck: cannot write",
    heading: "What gets it",
    input: "`/dev/full` as standard output",
    cure: "see that there is room, that you may write there, and that what reads the output is still there",
};

pub const MEMORY: Rule = Rule {
    number: 74,
    meaning: "there was no memory for the words of the command line, or for what is made of them",
    line: "dvgcheck: out of memory",
    heading: "What gets it",
    input: "no file alone",
    cure: "give the program more memory",
};

/// The text of rule 1 where no certificate was given.
pub const OWN_ROM_LENGTH: Rule = Rule {
    meaning: "the ROM has not exactly two bytes for each word address of its map: 2048 bytes, unless `--rom` says that it lies elsewhere",
    cure: "dump the whole vector ROM, and nothing else; where it lies elsewhere, say so by `--rom`",
    ..ROM_LENGTH
};

/// The text of rule 25 where no certificate was given.
pub const OWN_SHAPE_OUTSIDE_WINDOW: Rule = Rule {
    cure: "move the place of the LABS, or draw smaller; without `--clip`, give `--board --clip`, or a wider `--window` where it is smaller than the screen",
    ..SHAPE_OUTSIDE_WINDOW
};

/// The text of rule 46 where no certificate was given.
pub const OWN_FRAME_OUTSIDE_WINDOW: Rule = Rule {
    cure: "move the place, or draw a smaller size or scale; see that a called shape is drawn as you mean it; without `--clip`, give `--board --clip`, or a wider `--window` where it is smaller than the screen; dark moves may leave it",
    ..FRAME_OUTSIDE_WINDOW
};

/// The text of rule 48 where no certificate was given.
pub const OWN_FRAME_OVER_BUDGET: Rule = Rule {
    cure: "shorten the list, or allow more words by `--budget`",
    ..FRAME_OVER_BUDGET
};
