// What a line of the table asks about, read byte by byte: its numbers, and what stands in brackets.
use crate::show;

// The first eight numbers, as words.
pub type First = [u32; 8];

// What stands in brackets: how much; a frame's bytes, or four bytes for each position; which are positions. Then the same of links: all
// marks of a list that has a position for every head, and the links that gave a list or confessed.
#[derive(Clone, Copy)]
pub struct Brackets {
    pub places: usize,
    pub bytes: [u8; 128],
    pub marks: u32,
    pub words: [u32; 32],
    pub listed: u32,
    pub confessed: u32,
}

// A number that is being read.
#[derive(Clone, Copy)]
pub struct Number {
    pub open: bool,
    pub below: bool,
    pub value: u32,
}

// `mode` is what the last `#x`, `#l` or `#c` said; `wrong` is the number or word before the last closing parenthesis.
#[derive(Clone, Copy)]
pub struct Line {
    pub count: usize,
    pub numbers: First,
    pub brackets: Brackets,
    pub number: Number,
    pub inside: bool,
    pub mode: u8,
    pub wrong: u64,
}

pub(crate) fn fresh() -> Line {
    let brackets = Brackets {
        places: 0,
        bytes: [0u8; 128],
        marks: 0,
        words: [0u32; 32],
        listed: 0,
        confessed: 0,
    };
    let number = Number {
        open: false,
        below: false,
        value: 0,
    };
    Line {
        count: 0,
        numbers: [0u32; 8],
        brackets,
        number,
        inside: false,
        mode: 0,
        wrong: 0,
    }
}

// The value of a digit; 16 if it is none.
fn digit(b: u8, hex: bool) -> u8 {
    if b'0' <= b && b <= b'9' {
        return b - b'0';
    }
    if hex && b'a' <= b && b <= b'f' {
        return b - b'a' + 10;
    }
    16
}

fn word_of(number: Number) -> u32 {
    if number.below {
        return std::num::wrapping_sub_u32(0, number.value);
    }
    number.value
}

fn with_digit(number: Number, d: u8, hex: bool) -> Number {
    let mut n = number;
    n.open = true;
    if n.value < 100000000 {
        if hex {
            n.value = 16 * n.value + d as u32;
        } else {
            n.value = 10 * n.value + d as u32;
        }
    }
    n
}

// A number in brackets.
fn put_inside(brackets: Brackets, w: u32, hex: bool) -> Brackets {
    let mut r = brackets;
    let k = r.places;
    let mut bytes = r.bytes;
    if k < 32 {
        if hex {
            bytes[k] = (w % 256) as u8;
        } else {
            fields::put_word(&mut bytes, 4 * k, w);
        }
        r.words[k] = 0xffffffff;
        r.places = k + 1;
    }
    r.bytes = bytes;
    r.marks = marks::with_mark(r.marks, k);
    r.listed = marks::with_mark(r.listed, k);
    r
}

// A word in brackets, by the letter that no other has: null, confession, nothing.
fn gift(brackets: Brackets, b: u8) -> Brackets {
    let mut r = brackets;
    let k = r.places;
    if b == b'u' {
        r.listed = marks::with_mark(r.listed, k);
    } else if b == b'c' {
        r.confessed = marks::with_mark(r.confessed, k);
    } else if b != b'h' {
        return r;
    }
    if k < 32 {
        r.places = k + 1;
    }
    r
}

// A number outside: one more, or a head that gave a list or confessed.
fn put(line: Line, w: u32) -> Line {
    let mut l = line;
    let k = l.count;
    if l.mode == b'l' {
        l.brackets.listed = marks::with_mark(l.brackets.listed, w as usize);
    } else if l.mode == b'c' {
        l.brackets.confessed = marks::with_mark(l.brackets.confessed, w as usize);
    } else if k < 8 {
        l.numbers[k] = w;
        l.count = k + 1;
    }
    l
}

// The number that was read is whole.
fn close(line: Line) -> Line {
    let mut l = line;
    let n = l.number;
    let r = l.brackets;
    let w = word_of(n);
    l.number.open = false;
    l.number.below = false;
    l.number.value = 0;
    if l.inside {
        l.brackets = put_inside(r, w, l.mode == b'x');
        return l;
    }
    put(l, w)
}

// A byte that is no digit.
fn sign(line: Line, b: u8) -> Line {
    let mut l = line;
    let r = l.brackets;
    if l.inside {
        l.brackets = gift(r, b);
    }
    match b {
        b'-' => l.number.below = true,
        b'[' => l.inside = true,
        b']' => l.inside = false,
        _ => {}
    }
    l
}

// The next byte of a line.
pub(crate) fn read(line: Line, b: u8) -> Line {
    if b == b'\n' {
        return fresh();
    }
    let mut l = line;
    let n = l.number;
    let hex = l.mode == b'x';
    let d = digit(b, hex);
    if d < 16 {
        l.number = with_digit(n, d, hex);
        return l;
    }
    if b == b')' {
        l.wrong = if n.open {
            word_of(n) as u64
        } else {
            show::WORD
        };
    }
    if n.open {
        return sign(close(l), b);
    }
    sign(l, b)
}

// `#x`: hexadecimal bytes follow. `#l`, `#c`: heads follow that gave a list, or confessed.
pub(crate) fn turn(line: Line, b: u8) -> Line {
    let mut l = line;
    if b == b'x' || b == b'l' || b == b'c' {
        l.mode = b;
    }
    if b == b'l' {
        l.brackets.listed = 0;
    }
    l
}
