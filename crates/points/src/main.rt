// Every worked point of document 01, "Points on the ring", and the probes of its open points. The table is printed as it is, but that each
// `#` with the letter after it gives way to what the proved functions answer (asks.rt) to what was read of the line (lines.rt). What a
// wrong reading answers is part of the table, in parentheses; the line ends in `differs`, or in `SAME` if ours is the same.
#![tactic(auto)]

mod asks;
mod lines;
mod show;

use std::slice;

fn print(table: &[u8]) {
    let mut line = lines::fresh();
    let mut said = asks::Said {
        before: 0,
        latest: 0,
    };
    let mut asked = false;
    for b in table {
        if asked {
            line = lines::turn(line, *b);
            said = asks::say(line, said, *b);
            asked = false;
        } else if *b == b'#' {
            asked = true;
        } else {
            show::text(slice::from_ref(b));
            line = lines::read(line, *b);
        }
    }
}

fn main() {
    // Sizes that are taken.
    print(
        b"size 1 0: #S\n\
size 5 1: #S\n\
size 8 2: #S\n\
size 32 8: #S\n\
size 4 1: #S\n\
size 7 2: #S\n\
size 11 3: #S\n\
size 32 9: #S\n\
size 0 9: #S\n\
size 33 0: #S\n",
    );
    // Sizes at which halving is promised.
    print(
        b"halving at 5 1: #H\n\
halving at 9 2: #H\n\
halving at 12 3: #H\n\
halving at 23 6: #H\n\
halving at 8 2: #H (from 2n at least 7f + 2: promised) #=\n\
halving at 22 6: #H (from 2n at least 7f + 2: promised) #=\n",
    );
    // Half sums, rounded by the phase.
    print(
        b"half of -5 + 0 in phase 1: #h (towards zero: -2) #=\n\
half of -5 + 0 in phase 2: #h (away from zero: -3) #=\n\
half of -3 + -2 in phase 1: #h (towards zero: -2) #=\n\
half of -3 + -2 in phase 2: #h (away from zero: -3) #=\n\
half of -1 + 0 in phase 1: #h (towards zero: 0) #=\n\
half of -1 + 0 in phase 2: #h (away from zero: -1) #=\n\
half of -1000000 + -999999 in phase 1: #h (towards zero: -999999) #=\n\
half of -1000000 + -999999 in phase 2: #h (away from zero: -1000000) #=\n\
in phase 1, kept 0 to 1 and 1 to 2: #d and #e (odd sums to even: 0 and 2), spread #r (odd sums to even: 2) #=\n\
in phase 2, kept 0 to 1 and 1 to 2: #d and #e (odd sums to even: 0 and 2), spread #r (odd sums to even: 2) #=\n\
in phase 1, kept -2 to -1 and -1 to 0: #d and #e (odd sums to even: -2 and 0), spread #r (odd sums to even: 2) #=\n\
in phase 2, kept -2 to -1 and -1 to 0: #d and #e (odd sums to even: -2 and 0), spread #r (odd sums to even: 2) #=\n",
    );
    // The trim, by the number of nulls.
    print(
        b"trim at f = 1 with 0 to 3 nulls: #0 #1 #2 #3\n\
trim at f = 2 with 0 to 6 nulls: #0 #1 #2 #3 #4 #5 #6\n\
trim at f = 3 with 0 to 9 nulls: #0 #1 #2 #3 #4 #5 #6 #7 #8 #9\n",
    );
    // The midpoint of trusted entries.
    print(
        b"midpoint 5 1 in phase 1 [10 20 30 40 null]: #m (null for zero: 20) #=\n\
midpoint 5 1 in phase 1 [10 20 30 null null]: #m (null for zero: 10) #=\n\
midpoint 5 1 in phase 1 [10 20 null null null]: #m (null for zero: 5) #=\n\
midpoint 5 1 in phase 1 [10 null null null null]: #m (null for zero: 0) #=\n\
midpoint 5 1 in phase 1 [0 0 0 1 1]: #m\n\
midpoint 5 1 in phase 2 [0 0 0 1 1]: #m\n\
midpoint 5 1 in phase 1 [-3 -3 -2 -2 -2]: #m\n\
midpoint 5 1 in phase 2 [-3 -3 -2 -2 -2]: #m\n\
midpoint 1 0 in phase 1 [7]: #m\n\
midpoint 1 0 in phase 1 [0]: #m\n\
midpoint 1 0 in phase 1 [null]: #m (null for zero: 0) #=\n\
midpoint 2 0 in phase 1 [10 null]: #m (null for zero: 5) #=\n\
midpoint 5 1 in phase 0 [0 0 0 1 1]: #m\n\
midpoint 5 1 in phase 65536 [0 0 0 1 1]: #m\n",
    );
    // Trusted entries and support, from what the links gave.
    print(
        b"trusted 0 of 5 1, links gave [10 20 confession confession confession]: #t, support of 10 is #s, of 20 is #s\n\
trusted 0 of 5 1, links gave [10 10 10 10 nothing]: #t, support of 10 is #s, of 0 is #s\n\
trusted 0 of 5 1, links gave [10 10 10 null null]: #t, support of 10 is #s, of 0 is #s\n\
trusted 0 of 5 1, links gave [10 10 10 20 20]: #t, support of 10 is #s, of 20 is #s\n\
trusted 0 of 5 1, links gave [10 10 10 nothing confession]: #t, support of 10 is #s, of 0 is #s\n\
trusted 0 of 5 1, links gave [10 10 confession confession confession]: #t, support of 10 is #s, of 0 is #s\n\
trusted 0 of 5 1, links gave [10 confession confession confession confession]: #t, support of 10 is #s, of 0 is #s\n\
trusted 4 of 5 1, links gave [10 10 10 10 confession]: #t, support of 10 is #s, of 0 is #s\n\
trusted 0 of 8 2, links gave [7 7 7 confession confession confession confession confession]: #t, support of 7 is #s, of 0 is #s\n\
trusted 0 of 8 2, links gave [7 7 confession confession confession confession confession confession]: #t, support of 7 is #s, of 0 is #s\n\
trusted 0 of 22 6, links gave [1 1 1 1 1 1 2 2 2 2 2 2 confession confession confession confession confession confession \
confession confession confession confession]: #t, support of 1 is #s, of 2 is #s\n\
trusted 0 of 22 6, links gave [1 1 1 1 1 2 2 2 2 2 2 confession confession confession confession confession confession \
confession confession confession confession confession]: #t, support of 1 is #s, of 2 is #s\n\
trusted 0 of 22 6, links gave [1 1 1 1 1 2 2 2 2 2 2 nothing confession confession confession confession confession confession \
confession confession confession confession]: #t, support of 1 is #s, of 2 is #s\n\
trusted 4 of 5 1, links gave [50 50 50 50 nothing]: #t (nothing for a confession: null) #=\n\
trusted 0 of 5 1, links gave [10 10 10 nothing nothing]: #t (nothing for a confession: 10) #=\n\
trusted 0 of 5 1, links gave [10 10 nothing nothing confession]: #t (nothing for a confession: 10) #=\n\
trusted 0 of 5 1, links gave [null null null null null]: #t (null for zero: 0) #=\n\
trusted 0 of 5 1, links gave [10 null null null null]: #t (null for zero: 0) #=\n\
trusted 0 of 5 1, links gave [0 0 null null nothing]: #t (null for zero: 0) #=\n",
    );
    // Confession rounds in which every link that gave a list gave the same one.
    print(
        b"settle 5 1: list [10 20 30 40 null] from#l 0 1 2 3, confession from#c 4: trusted [#0 #1 #2 #3 #4], new position: #p\n\
settle 5 1: list [10 20 30 40 50] from#l 0 1 2 3, confession from#c none: trusted [#0 #1 #2 #3 #4], new position: #p\n\
settle 5 1: list [10 20 30 40 50] from#l 0 1 2, confession from#c none: trusted [#0 #1 #2 #3 #4], new position: #p\n\
settle 5 1: list [null null null null null] from#l none, confession from#c none: trusted [#0 #1 #2 #3 #4], new position: #p\n\
settle 1 0: list [7] from#l 0, confession from#c none: trusted [#0], new position: #p\n\
settle 8 2: list [7 7 7 7 7 7 7 7] from#l 0 1, confession from#c 2 3 4 5 6 7: trusted [#0 #1 #2 #3 #4 #5 #6 #7], new position: #p\n\
settle 8 2: list [null null null null 2 0 0 2] from#l 0 1 5 6 7, confession from#c 2 3 4: trusted [#0 #1 #2 #3 #4 #5 #6 #7], new \
position: #p\n\
settle 8 2: list [null null null null 2 0 0 2] from#l 0 1 4 6 7, confession from#c 2 3 5: trusted [#0 #1 #2 #3 #4 #5 #6 #7], new \
position: #p\n\
these two settle on #< and #>: spread 2 becomes #r (halving from 2n at least 7f + 2: 1) #=\n",
    );
    // The frame check.
    print(
        b"frame #x[]: #F\n\
frame #x[01]: #F\n\
frame #x[02 00]: #F\n\
frame #x[03 00 02]: #F\n\
frame #x[04 00 02]: #F\n\
frame #x[08 00 02 00 00 01 00]: #F\n\
frame #x[07 01 02 00 00 01 00]: #F\n\
frame #x[04 00 05 00]: #F\n\
frame #x[04 00 01 00]: #F\n\
frame #x[05 00 02 00 00]: #F\n\
frame #x[06 00 04 00 00 01]: #F\n\
frame #x[06 00 00 00 00 01]: #F\n\
frame #x[07 00 03 00 00 01 00]: #F\n\
frame #x[08 00 02 00 00 01 00 00]: #F\n\
frame #x[0c 00 03 00 00 01 00 01 00 00 00 00]: #F\n\
frame #x[07 00 00 00 00 01 00]: #F\n\
frame #x[07 00 05 00 00 01 00]: #F\n\
frame #x[07 00 10 00 00 01 00]: #F\n\
frame #x[08 00 11 00 00 00 00 00]: #F\n\
frame #x[07 00 12 00 00 01 00]: #F\n\
frame #x[0b 00 01 01 00 01 00 0a 00 00 00]: #F\n\
frame #x[0b 00 01 00 02 01 00 0a 00 00 00]: #F\n\
frame #x[07 00 02 00 02 01 00]: #F\n\
frame #x[10 00 03 00 02 01 00 01 01 00 00 00 0a 00 00 00]: #F\n\
frame #x[07 00 04 00 02 01 00]: #F\n\
frame #x[0c 00 03 00 00 01 00 00 00 00 00 00]: #F\n\
frame #x[0b 00 01 00 ff 00 00 ff ff ff 7f]: #F\n\
frame #x[10 00 03 00 ff 00 00 01 fe ff ff ff ff ff ff 7f]: #F\n\
list frame of 32 bytes with count 5: #L\n\
list frame of 140 bytes with count 32: #L\n\
list frame of 144 bytes with count 33: #L\n\
list frame of 1032 bytes with count 255: #L\n\
list frame of 28 bytes with count 5: #L\n\
list frame of 32 bytes with count 4: #L\n\
65536 bytes, all 0: #B\n",
    );
    // The step scale.
    print(
        b"scale 1000000 by 1000000/1: #N\n\
scale -1000000 by 1000000/1: #N\n\
scale 1000000 by 1000000/1000000: #N\n\
scale 7 by 5/5: #N\n\
scale 5 by 3/2: #N\n\
scale 1 by 0/1: #N\n\
scale 1 by 1/0: #N\n\
scale 1 by 2/3: #N\n\
scale 1 by 1000001/1: #N\n\
scale 1000001 by 0/1: #N\n\
scale 1000001 by 2/3: #N\n\
scale 1000001 by 1/1: #N\n\
scale -1000001 by 1/1: #N\n\
scale -1 by 3/2: #N (towards zero: -1) #=\n\
scale -5 by 3/2: #N (towards zero: -7) #=\n\
scale -7 by 10/3: #N (towards zero: -23) #=\n\
scale -1000000 by 1000000/999999: #N (towards zero: -1000001) #=\n",
    );
}
