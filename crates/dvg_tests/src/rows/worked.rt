//! The worked rows, in the form of [`table`](crate::table). The script tests/command-line reads them here, and judges them by the program.

/// Frames over a ROM of zeros, shapes, ROMs that lie elsewhere; what is claimed of one lit stroke, and frames that call it.
pub const WORKED: &str = "\
a frame that halts at once
accepted shapes=0 words=1 depth=0

draws at an unknown place
frame 7000 7000 B000
refused 44 frame at 000

a jump forward
frame E001 B000
accepted shapes=0 words=2 depth=0

a jump to itself
frame E000
refused 43 frame at 000

a jump to the ROM
frame E800 B000
refused 40 frame at 800

a jump over 512 words
frame E201 0000*512 B000
accepted shapes=0 words=2 depth=0

a stroke from 1,1 to 0,0
frame A001 0001 9401 7401 B000
accepted shapes=0 words=5 depth=0

the same one place lower
frame A001 0000 9401 7401 B000
refused 46 frame at 002

a stroke from 1,1 to 0,0 in the least window that holds it
frame A001 0001 9401 7401 B000
window 0,1,0,1
accepted shapes=0 words=5 depth=0

a dark move from 0,0 to 1,0, outside the window
frame A000 0000 9000 0001 B000
window 5,6,5,6
accepted shapes=0 words=5 depth=0

an odd LABS
frame A480 0000 B000
refused 41 frame at 000

a last word of a frame that would be odd
frame A400
refused 40 frame at 000

a return with nothing stored
frame D000
refused 42 frame at 000

a stroke that begins above the screen and ends on it
frame A3FF 0000 9001 0000 9401 1000 B000
refused 46 frame at 004

a dark stroke off the screen
frame A3FF 0000 9001 0000 B000
accepted shapes=0 words=5 depth=0

a dark stroke at a lost place and unknown scale
frame 9001 0000 B000
accepted shapes=0 words=3 depth=0

a call that has no entry and is over the budget
frame A000 0000 C800 B000
budget 2
refused 47 frame at 002

a frame of no bytes
frame
refused 2

a frame of three bytes
frame B000 00
refused 2

a text of its first line alone
text dvgcert 1|
refused 13 certificate line 2

a ROM of 2047 bytes
bytes 2047
refused 1

the same, and a frame of three bytes
frame B000 00
refused 2

a ROM of 2047 bytes, and a text that is cut off
bytes 2047
text dvgcert 1|
refused 13 certificate line 2

a ROM of 2046 bytes at 400 to 7FF
map 400 7FF
bytes 2046
refused 1

a ROM of zeros at 400 to 7FF
map 400 7FF
accepted shapes=0 words=1 depth=0

a box whose top is above the end
rom 800 FA70 F672 D000
shape 800 0 end rel 4096 4096 box 0 4096 0 8192 depth 0 words 3 scale 0
accepted shapes=1 words=1 depth=0

a shape that sets its place, called at a lost one
rom 800 A064 0190 D000
shape 800 any end abs 409600 102400 box none depth 0 words 3 scale 0
frame C800 B000
accepted shapes=1 words=5 depth=1

the same in a window of that place alone
window 400,400,100,100

a shape that calls itself
rom 800 C800 D000
shape 800 0 end rel 0 0 box none depth 3 words 1000000 scale 0
refused 27 shape 800/0 at 800

the same, where counts are exact
mode exact

a shape that jumps to itself
rom 800 E800
shape 800 0 end rel 0 0 box none depth 0 words 1000000 scale 0
refused 28 shape 800/0 at 800

two shapes that jump to one another
rom 800 E801 E800
shape 800 0 end rel 0 0 box none depth 0 words 1000000 scale 0
shape 801 0 end rel 0 0 box none depth 0 words 999999 scale 0
refused 28 shape 801/0 at 801

four calls in one another
rom 800 C802 D000 C804 D000 C806 D000 D000
shape 800 0 end rel 0 0 box none depth 3 words 7 scale 0
shape 802 0 end rel 0 0 box none depth 2 words 5 scale 0
shape 804 0 end rel 0 0 box none depth 1 words 3 scale 0
shape 806 0 end rel 0 0 box none depth 0 words 1 scale 0
frame A000 0000 C800 B000
accepted shapes=4 words=11 depth=4

the same four, where counts are exact
mode exact

an entry of depth 4
rom 800 C802 D000 C804 D000 C806 D000 D000
shape 800 0 end rel 0 0 box none depth 3 words 7 scale 0
shape 802 0 end rel 0 0 box none depth 2 words 5 scale 0
shape 804 0 end rel 0 0 box none depth 1 words 3 scale 0
shape 806 0 end rel 0 0 box none depth 0 words 1 scale 0
shape 808 0 end rel 0 0 box none depth 4 words 1 scale 0
frame A000 0000 C800 B000
refused 10 certificate line 6

a stroke off the screen at a place that the shape set
rom 800 A000 03FF 9000 7001 D000
shape 800 0 end abs 1048576 0 box none depth 0 words 5 scale 0
refused 25 shape 800/0 at 802

a shape that lights from 1,0 to 2,0
rom 800 A000 0001 9000 7001 D000
shape 800 0 end abs 2048 0 box none depth 0 words 5 scale 0
accepted shapes=1 words=1 depth=0

the same, where the window ends at 1
window 0,1,0,1
refused 25 shape 800/0 at 802

a stroke whose second word is past the ROM
rom BFF 7000
shape BFF 0 end rel 0 0 box none depth 0 words 2 scale 0
refused 20 shape BFF/0 at BFF

the same of a LABS that would be odd
rom BFF A400

the same of a short draw, behind which the shape runs past the ROM
rom BFF F000
refused 20 shape BFF/0 at C00

an odd LABS of a shape
rom 800 A400
shape 800 0 end lost box none depth 0 words 1 scale 0
refused 21 shape 800/0 at 800

a lit stroke after a call that leaves the scale unknown
rom 806 D000
shape 806 any end rel 0 0 box none depth 0 words 1 scale any
frame A000 0000 C806 9000 7001 B000
refused 45 frame at 003

a HALT in a shape
rom 800 B000
shape 800 0 end rel 0 0 box none depth 0 words 1 scale 0
refused 22 shape 800/0 at 800

a call of what no entry is for
rom 800 C900 D000
shape 800 0 end rel 0 0 box none depth 1 words 9 scale 0
refused 26 shape 800/0 at 800

a shape that lights by a call
rom 800 C802 D000 9000 7001 D000
shape 800 0 end rel 1024 0 box 0 1024 0 0 depth 1 words 5 scale 0
shape 802 0 end rel 1024 0 box 0 1024 0 0 depth 0 words 3 scale 0
frame A000 0000 C800 B000
accepted shapes=2 words=9 depth=2

the same, called where the box is off the screen
frame A000 03FF C800 B000
refused 46 frame at 002

a shape that hides what it lights by a call
rom 800 C802 D000 9000 7001 D000
shape 800 0 end rel 1024 0 box none depth 1 words 5 scale 0
shape 802 0 end rel 1024 0 box 0 1024 0 0 depth 0 words 3 scale 0
refused 31 shape 800/0 at 800

the same, and what it calls hides it too
shape 800 0 end rel 1024 0 box none depth 1 words 5 scale 0
shape 802 0 end rel 1024 0 box none depth 0 words 3 scale 0
refused 31 shape 802/0 at 802

a stroke that begins outside the box and ends in it
rom 800 9001 0000 9401 1000 D000
shape 800 0 end rel 0 0 box 0 0 0 0 depth 0 words 5 scale 0
refused 31 shape 800/0 at 802

a called box whose lower corner alone is off the screen
rom 800 9401 1000 D000
shape 800 0 end rel 0 -1024 box 0 0 -1024 0 depth 0 words 3 scale 0
frame A000 0000 C800 B000
refused 46 frame at 002

the entry for the scale comes before that for any
rom 800 D000 C800 D000
shape 800 0 end rel 0 0 box none depth 0 words 1 scale 0
shape 800 any end rel 0 0 box none depth 0 words 2 scale any
shape 801 0 end rel 0 0 box none depth 1 words 3 scale 0
frame A000 0000 C801 B000
accepted shapes=3 words=7 depth=2

the same at a scale that has none: the entry for any
frame A000 1000 C800 B000
accepted shapes=3 words=6 depth=1

a dark draw of size 0 at unknown scale loses the place
rom 800 8400 0000 D000
shape 800 any end rel 0 0 box none depth 0 words 3 scale any
refused 29 shape 800/any at 802

the same, and a lost end claimed
shape 800 any end lost box none depth 0 words 3 scale any
accepted shapes=1 words=1 depth=0

a tail jump to what is deeper than claimed
rom 800 E801 C803 D000 D000
shape 800 0 end rel 0 0 box none depth 0 words 4 scale 0
shape 801 0 end rel 0 0 box none depth 1 words 3 scale 0
shape 803 0 end rel 0 0 box none depth 0 words 1 scale 0
refused 27 shape 800/0 at 800

the same to what is just as deep as claimed
shape 800 0 end rel 0 0 box none depth 1 words 4 scale 0
shape 801 0 end rel 0 0 box none depth 1 words 3 scale 0
shape 803 0 end rel 0 0 box none depth 0 words 1 scale 0
frame A000 0000 C800 B000
accepted shapes=3 words=8 depth=2

a lost end claimed of a known place
rom 800 D000
shape 800 0 end lost box none depth 0 words 1 scale 0
refused 29 shape 800/0 at 800

the same shape: any scale claimed of a known one
shape 800 0 end rel 0 0 box none depth 0 words 1 scale any
refused 30 shape 800/0 at 800

the same shape: a box called at a lost place of a frame
shape 800 any end rel 0 0 box 0 0 0 0 depth 0 words 1 scale any
frame C800 B000
refused 44 frame at 000

a box called at a lost place of a shape
rom 800 D000 8400 0000 C800 D000
shape 800 any end rel 0 0 box 0 0 0 0 depth 0 words 1 scale any
shape 801 any end lost box none depth 1 words 5 scale any
refused 23 shape 801/any at 803

a dark stroke out of every box and off the screen
rom 800 9001 0000 D000
shape 800 0 end rel 0 1024 box none depth 0 words 3 scale 0
frame A3FF 0000 C800 B000
accepted shapes=1 words=7 depth=1

a shape at global scale 15
rom 800 0001 1000 D000
shape 800 15 end rel 0 1 box 0 0 0 1 depth 0 words 3 scale 15
accepted shapes=1 words=1 depth=0

strokes of three local scales at global scale 15
rom 800 9001 7000 8000 7001 7000 7401 D000
shape 800 15 end rel 128 512 box 0 256 0 512 depth 0 words 7 scale 15
accepted shapes=1 words=1 depth=0

the same, and the second leaves the box
shape 800 15 end rel 128 512 box 0 255 0 512 depth 0 words 7 scale 15
refused 31 shape 800/15 at 802

two strokes, the first over effective scale 9
rom 800 9001 7000 8000 7001 D000
shape 800 1 end rel 1024 1 box 0 1024 0 1 depth 0 words 5 scale 1
accepted shapes=1 words=1 depth=0

calls up to the end of the ROM, each by the greatest number
rom 800 CBFF*1023 D000
shape 800 0 end rel 0 0 box none depth 1 words 2047 scale 0
shape BFF 0 end rel 2000000000000 2000000000000 box none depth 0 words 1 scale 0
refused 29 shape 800/0 at BFF

the same, with as many words as may be claimed
shape 800 0 end rel 0 0 box none depth 1 words 1000000 scale 0
shape BFF 0 end rel 2000000000000 2000000000000 box none depth 0 words 1000000 scale 0
refused 28 shape 800/0 at 800

a stroke of a ROM at 400
map 400 7FF
rom 400 92FF 73FF D000
shape 400 0 end rel 1047552 785408 box 0 1047552 0 785408 depth 0 words 3 scale 0
frame A080 0000 C400 B0B0
accepted shapes=1 words=7 depth=1

the lowest word alone
map 400 400
rom 400 D000
shape 400 any end rel 0 0 box none depth 0 words 1 scale any
frame C400 B000
accepted shapes=1 words=3 depth=1

the highest word alone
map BFF BFF
rom BFF D000
shape BFF any end rel 0 0 box none depth 0 words 1 scale any
frame CBFF B000
accepted shapes=1 words=3 depth=1

the highest word alone, of a long instruction
map BFF BFF
rom BFF 9000
shape BFF 0 end rel 0 0 box none depth 0 words 2 scale 0
refused 20 shape BFF/0 at BFF

the longest ROM, whose first shape calls its last word
map 400 BFF
rom 400 CBFF D000
shape 400 0 end rel 0 0 box none depth 1 words 3 scale 0
refused 26 shape 400/0 at 400

the longest ROM, by its last word
map 400 BFF
rom BFF D000
shape BFF 0 end rel 0 0 box none depth 0 words 1 scale 0
frame A000 0000 CBFF B000
accepted shapes=1 words=5 depth=1

the first word of a ROM that ends at BFF
map A00 BFF
rom A00 D000
shape A00 any end rel 0 0 box none depth 0 words 1 scale any
frame CA00 B000
accepted shapes=1 words=3 depth=1

the last word of a ROM that begins at 400
map 400 8FF
rom 8FF D000
shape 8FF any end rel 0 0 box none depth 0 words 1 scale any
frame C8FF B000
accepted shapes=1 words=3 depth=1

usually the stroke, and a frame that halts at once
rom 800 92FF 73FF D000
shape 800 0 end rel 1047552 785408 box 0 1047552 0 785408 depth 0 words 3 scale 0

the stroke, and a frame of HALT alone
accepted shapes=1 words=1 depth=0

a box too low
shape 800 0 end rel 1047552 785408 box 0 1047552 0 785407 depth 0 words 3 scale 0
refused 31 shape 800/0 at 800

another end
shape 800 0 end rel 1047552 785407 box 0 1047552 0 785408 depth 0 words 3 scale 0
refused 29 shape 800/0 at 802

another scale
shape 800 0 end rel 1047552 785408 box 0 1047552 0 785408 depth 0 words 3 scale 1
refused 30 shape 800/0 at 802

too few words
shape 800 0 end rel 1047552 785408 box 0 1047552 0 785408 depth 0 words 2 scale 0
refused 28 shape 800/0 at 802

a lit stroke at unknown scale
shape 800 any end lost box none depth 0 words 3 scale any
refused 24 shape 800/any at 800

an address past the ROM's last word
map 800 802
shape 803 0 end rel 0 0 box none depth 0 words 1 scale 0
refused 10 certificate line 3

an address in small letters
shape 80a 0 end rel 1047552 785408 box 0 1047552 0 785408 depth 0 words 3 scale 0
refused 10 certificate line 2

a coordinate of -0
shape 800 0 end rel -0 785408 box 0 1047552 0 785408 depth 0 words 3 scale 0
refused 10 certificate line 2

an entry twice
shape 800 0 end rel 1047552 785408 box 0 1047552 0 785408 depth 0 words 3 scale 0
shape 800 0 end rel 1047552 785408 box 0 1047552 0 785408 depth 0 words 3 scale 0
refused 11 certificate line 3

another count of entries
text dvgcert 1|shape 800 0 end rel 1047552 785408 box 0 1047552 0 785408 depth 0 words 3 scale 0|done 2|
refused 12 certificate line 3

no last line
text dvgcert 1|shape 800 0 end rel 1047552 785408 box 0 1047552 0 785408 depth 0 words 3 scale 0|
refused 13 certificate line 3

a byte behind the last line
text dvgcert 1|shape 800 0 end rel 1047552 785408 box 0 1047552 0 785408 depth 0 words 3 scale 0|done 1|x|
refused 14 certificate line 4

usually the stroke, and a frame that calls it from the lower middle of the screen
frame A080 0000 C800 B0B0

a stroke to the screen's right edge
accepted shapes=1 words=7 depth=1

the same, one place too far to the right
frame A080 0001 C800 B0B0
refused 46 frame at 002

a stroke to the screen's upper edge
frame A100 0000 C800 B0B0
accepted shapes=1 words=7 depth=1

the same, one place higher
frame A101 0000 C800 B0B0
refused 46 frame at 002

a call at a scale that no entry is for
frame A080 F000 C800 B0B0
refused 47 frame at 002

the same, and an entry for that scale, too
shape 800 0 end rel 1047552 785408 box 0 1047552 0 785408 depth 0 words 3 scale 0
shape 800 15 end rel 523776 392704 box 0 523776 0 392704 depth 0 words 3 scale 15
accepted shapes=2 words=7 depth=1

a call at unknown scale, of what has a number alone
frame C800 B000
refused 47 frame at 000

a frame without HALT
frame A080 0000
refused 40 frame at 002

a budget of all words
budget 7
accepted shapes=1 words=7 depth=1

the same, one word less
budget 6
refused 48 frame at 003

the same, with no budget
budget 0
refused 49

a stroke to the edges of its window
window 0,1023,128,895
accepted shapes=1 words=7 depth=1

the same, with the window's top one place lower
window 0,1023,128,894
refused 46 frame at 002

the same, with the window's left side one place further in
window 1,1023,0,1023

a shape with just the words and the depth that it claims
mode exact
accepted shapes=1 words=7 depth=1

one word more claimed than there is
shape 800 0 end rel 1047552 785408 box 0 1047552 0 785408 depth 0 words 4 scale 0
accepted shapes=1 words=8 depth=1

the same word, where counts are exact
mode exact
refused 32 shape 800/0 at 802

one return place more claimed than there is
shape 800 0 end rel 1047552 785408 box 0 1047552 0 785408 depth 1 words 3 scale 0
accepted shapes=1 words=7 depth=2

the same place, where counts are exact
mode exact
refused 33 shape 800/0 at 802

the same and one word more, where counts are exact
shape 800 0 end rel 1047552 785408 box 0 1047552 0 785408 depth 1 words 4 scale 0
refused 32 shape 800/0 at 802

a ROM of three words
map 800 802
accepted shapes=1 words=7 depth=1

the same without the shape's last word
map 800 801
rom 800 92FF 73FF
refused 20 shape 800/0 at 802

a ROM of 2046 bytes for the stroke
bytes 2046
refused 1

the same, where the ROM ends at BFE
map 800 BFE
accepted shapes=1 words=7 depth=1

the same, and a word more than that ROM has
bytes 2048
refused 1
";
