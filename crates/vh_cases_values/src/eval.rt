use std::alloc::Global;
use std::test::Fail;
use vh_base::{ExprId, NoMemory, ObjId, Object, Sequence};
use vh_design::{
    Arithmetic, Chosen, Comparison, Design, Detail, ExprKind, ExprNode, Kind, Link, Logic, Name,
    ObjectInfo, Parts, Range, Select, Selected, Shift, Unary,
};
use vh_design_nodes::{kind_signed, kind_width, signed_of, width_of};
use vh_eval::eval;
use vh_logic::{Digit, Vec4};
use vh_store::Store;
use vh_text::read_literal;

// The objects of the design below: reg [7:0] a; reg signed [0:3] b; reg [3:0] m [2:4].
const A: u32 = 1;

const B: u32 = 2;

const M: u32 = 3;

fn object(
    alloc: Global,
    kind: Kind,
    width: u32,
    signed: bool,
    words: u32,
    detail: Detail,
) -> Result<ObjectInfo, NoMemory> {
    Ok(ObjectInfo {
        kind,
        name: Name::from_slice(alloc, b"x")?,
        parent: None,
        width,
        signed,
        words,
        line: 1,
        detail,
    })
}

fn objects(alloc: Global) -> Result<Vec<ObjectInfo>, NoMemory> {
    let mut all = Vec::new(alloc);
    all.push(object(alloc, Kind::Module, 1, false, 0, Detail::Plain)?)?;
    all.push(object(alloc, Kind::Reg, 8, false, 0, Detail::Plain)?)?;
    all.push(object(alloc, Kind::Reg, 4, true, 0, Detail::Plain)?)?;
    all.push(object(alloc, Kind::Memory, 4, false, 3, Detail::Memory(2))?)?;
    Ok(all)
}

fn range_of(object: u32) -> Range {
    match object {
        A => Range { left: 7, right: 0 },
        B => Range { left: 0, right: 3 },
        _ => Range { left: 3, right: 0 },
    }
}

// What is selected of an object or of a word of the memory.
fn selected(object: ObjId, word: Option<ExprId>, select: Select) -> ExprKind {
    let of = Chosen { object, word };
    ExprKind::Selected(Selected { of, select })
}

// Expressions that are built one after the other, with a stack of those that nothing has used yet.
#[derive(Drop)]
struct Builder {
    alloc: Global,
    objects: Vec<ObjectInfo>,
    exprs: Vec<ExprNode>,
    stack: Vec<ExprId>,
    declared: Vec<(ObjId, Range)>,
}

impl Builder {
    fn add(&mut self, kind: ExprKind) -> Result<(), NoMemory> {
        let width = kind_width(&self.exprs, &self.objects, &kind);
        let signed = kind_signed(&self.exprs, &self.objects, &kind);
        let e = ExprId::new(u32::try_from(self.exprs.len()).unwrap_or(0));
        self.exprs.push(ExprNode {
            kind,
            width,
            signed,
        })?;
        self.stack.push(e)?;
        Ok(())
    }

    fn pop(&mut self) -> ExprId {
        self.stack.pop().unwrap_or(ExprId::new(0))
    }
}

// An operator on one operand by its word.
fn unary(token: &str) -> Option<Unary> {
    match token {
        "u-" => Some(Unary::Negate),
        "u+" => Some(Unary::Plus),
        "~" => Some(Unary::Invert),
        "!" => Some(Unary::Not),
        "r&" => Some(Unary::And),
        "r~&" => Some(Unary::Nand),
        "r|" => Some(Unary::Or),
        "r~|" => Some(Unary::Nor),
        "r^" => Some(Unary::Xor),
        "r~^" => Some(Unary::Xnor),
        _ => None,
    }
}

fn arithmetic(token: &str) -> Option<Arithmetic> {
    match token {
        "+" => Some(Arithmetic::Add),
        "-" => Some(Arithmetic::Subtract),
        "*" => Some(Arithmetic::Multiply),
        "/" => Some(Arithmetic::Divide),
        "%" => Some(Arithmetic::Remainder),
        "&" => Some(Arithmetic::And),
        "|" => Some(Arithmetic::Or),
        "^" => Some(Arithmetic::Xor),
        "^~" => Some(Arithmetic::Xnor),
        _ => None,
    }
}

fn shift(token: &str) -> Option<Shift> {
    match token {
        "<<" => Some(Shift::Left),
        ">>" => Some(Shift::Right),
        "<<<" => Some(Shift::SignedLeft),
        ">>>" => Some(Shift::SignedRight),
        "**" => Some(Shift::Power),
        _ => None,
    }
}

fn comparison(token: &str) -> Option<Comparison> {
    match token {
        "<" => Some(Comparison::Less),
        "<=" => Some(Comparison::LessOrEqual),
        ">" => Some(Comparison::Greater),
        ">=" => Some(Comparison::GreaterOrEqual),
        "==" => Some(Comparison::Equal),
        "!=" => Some(Comparison::NotEqual),
        "===" => Some(Comparison::CaseEqual),
        "!==" => Some(Comparison::CaseNotEqual),
        _ => None,
    }
}

fn logic(token: &str) -> Option<Logic> {
    match token {
        "&&" => Some(Logic::And),
        "||" => Some(Logic::Or),
        _ => None,
    }
}

// The number that digits write.
fn number(digits: &[u8]) -> u32 {
    digits.iter().fold(0, |n: u32, digit| {
        n.saturating_mul(10)
            .saturating_add(u32::from(digit.saturating_sub(b'0')))
    })
}

// Two numbers with a colon between them.
fn numbers(text: &[u8]) -> (u32, u32) {
    let mut parts = text.split(|byte| *byte == b':');
    let first = parts.next().map_or(0, number);
    let second = parts.next().map_or(0, number);
    (first, second)
}

// A literal's value; one z digit for what is none.
fn literal(bytes: &[u8]) -> Vec4 {
    match read_literal(bytes) {
        Ok(v) => v,
        Err(_) => Vec4::filled(1, Digit::Z, false),
    }
}

impl Builder {
    // One word: an operator takes its operands from the stack, the last one first.
    fn word(&mut self, word: &str) -> Result<(), NoMemory> {
        match self.operator(word)? {
            Some(kind) => self.add(kind),
            None => self.other(word),
        }
    }

    fn operator(&mut self, word: &str) -> Result<Option<ExprKind>, NoMemory> {
        if let Some(op) = unary(word) {
            let part = self.pop();
            return Ok(Some(ExprKind::Unary { op, part }));
        }
        if let Some(op) = arithmetic(word) {
            return Ok(Some(self.arithmetic(op)?));
        }
        if let Some(op) = shift(word) {
            return Ok(Some(self.shift(op)?));
        }
        if let Some(op) = comparison(word) {
            return Ok(Some(self.comparison(op)?));
        }
        if let Some(op) = logic(word) {
            return Ok(Some(self.logic(op)?));
        }
        Ok(None)
    }

    fn arithmetic(&mut self, op: Arithmetic) -> Result<ExprKind, NoMemory> {
        let (first, part) = self.two();
        let rest = Sequence::from_slice(self.alloc, &[Link { op, part }])?;
        Ok(ExprKind::Arithmetic { first, rest })
    }

    fn shift(&mut self, op: Shift) -> Result<ExprKind, NoMemory> {
        let (first, part) = self.two();
        let rest = Sequence::from_slice(self.alloc, &[Link { op, part }])?;
        Ok(ExprKind::Shift { first, rest })
    }

    fn comparison(&mut self, op: Comparison) -> Result<ExprKind, NoMemory> {
        let (first, part) = self.two();
        let rest = Sequence::from_slice(self.alloc, &[Link { op, part }])?;
        Ok(ExprKind::Comparison { first, rest })
    }

    fn logic(&mut self, op: Logic) -> Result<ExprKind, NoMemory> {
        let (first, part) = self.two();
        let rest = Sequence::from_slice(self.alloc, &[Link { op, part }])?;
        Ok(ExprKind::Logic { first, rest })
    }

    // The two on top of the stack, the lower one first.
    fn two(&mut self) -> (ExprId, ExprId) {
        let second = self.pop();
        let first = self.pop();
        (first, second)
    }

    fn other(&mut self, word: &str) -> Result<(), NoMemory> {
        match word {
            "{}" => self.joined(),
            "a-b-c" => self.difference(),
            "a==b==c" => self.equality(),
            _ => match self.part(word) {
                Some(kind) => self.add(kind),
                None => self.select(word.as_bytes()),
            },
        }
    }

    fn joined(&mut self) -> Result<(), NoMemory> {
        let (first, last) = self.two();
        let rest = Sequence::from_slice(self.alloc, &[last])?;
        self.add(ExprKind::Join { first, rest })
    }

    fn difference(&mut self) -> Result<(), NoMemory> {
        let (second, third) = self.two();
        let first = self.pop();
        let op = Arithmetic::Subtract;
        let links = [Link { op, part: second }, Link { op, part: third }];
        let rest = Sequence::from_slice(self.alloc, &links)?;
        self.add(ExprKind::Arithmetic { first, rest })
    }

    fn equality(&mut self) -> Result<(), NoMemory> {
        let (second, third) = self.two();
        let first = self.pop();
        let op = Comparison::Equal;
        let links = [Link { op, part: second }, Link { op, part: third }];
        let rest = Sequence::from_slice(self.alloc, &links)?;
        self.add(ExprKind::Comparison { first, rest })
    }

    fn part(&mut self, word: &str) -> Option<ExprKind> {
        match word {
            "a" => Some(selected(ObjId::new(A), None, Select::Whole)),
            "b" => Some(selected(ObjId::new(B), None, Select::Whole)),
            "?:" => Some(self.choice()),
            "$signed" => Some(self.marked(true)),
            "$unsigned" => Some(self.marked(false)),
            "m[]" => Some(self.whole_word()),
            "m[][]" => Some(self.digit_of_word()),
            _ => None,
        }
    }

    fn choice(&mut self) -> ExprKind {
        let (yes, no) = self.two();
        let condition = self.pop();
        ExprKind::Choice { condition, yes, no }
    }

    fn marked(&mut self, signed: bool) -> ExprKind {
        let part = self.pop();
        ExprKind::WithSign { part, signed }
    }

    fn whole_word(&mut self) -> ExprKind {
        let word = self.pop();
        selected(ObjId::new(M), Some(word), Select::Whole)
    }

    fn digit_of_word(&mut self) -> ExprKind {
        let (word, index) = self.two();
        let range = range_of(M);
        selected(ObjId::new(M), Some(word), Select::Bit { range, index })
    }

    // A parameter `[left:right]` with the value on top of the stack.
    fn declare(&mut self, left: u32, right: u32) -> Result<(), NoMemory> {
        let value = self.pop();
        let width = width_of(&self.exprs, value);
        let signed = signed_of(&self.exprs, value);
        let id = ObjId::new(u32::try_from(self.objects.len()).unwrap_or(0));
        let detail = Detail::Value(value);
        self.objects.push(object(self.alloc, Kind::Parameter, width, signed, 0, detail)?)?;
        self.declared.push((id, Range { left, right }))?;
        Ok(())
    }

    // The object that a select names: `a`, `b`, or the last parameter that none has named yet.
    fn named(&mut self, name: u8) -> (ObjId, Range) {
        match name {
            b'a' => (ObjId::new(A), range_of(A)),
            b'b' => (ObjId::new(B), range_of(B)),
            _ => self.declared.pop().unwrap_or((ObjId::new(A), range_of(A))),
        }
    }

    // `x[]` a digit, `x:LOW:WIDTH` digits from a constant index up, `x+:WIDTH` and `x-:WIDTH` digits from an
    // index on, `pLEFT:RIGHT` a parameter; or a literal.
    fn select(&mut self, word: &[u8]) -> Result<(), NoMemory> {
        match word {
            [name, b'[', b']'] => {
                let index = self.pop();
                let (object, range) = self.named(*name);
                self.add(selected(object, None, Select::Bit { range, index }))
            }
            [b'{', count, b'}'] => {
                let count = number(&[*count]);
                let part = self.pop();
                self.add(ExprKind::Repeat { count, part })
            }
            [b'p', first, ..] if first.is_ascii_digit() => {
                let (left, right) = numbers(&word[1..]);
                self.declare(left, right)
            }
            [b'a' | b'b' | b'p', ..] => self.digits(word),
            _ => self.add(ExprKind::Literal(literal(word))),
        }
    }

    fn digits(&mut self, word: &[u8]) -> Result<(), NoMemory> {
        match word {
            [name, b':', rest @ ..] => {
                let (lowest, width) = numbers(rest);
                let (object, range) = self.named(*name);
                let select = Select::Slice {
                    range,
                    lowest,
                    width,
                };
                self.add(selected(object, None, select))
            }
            [name, sign, b':', rest @ ..] => {
                let base = self.pop();
                let (object, range) = self.named(*name);
                let select = Select::Indexed {
                    up: *sign == b'+',
                    range,
                    base,
                    width: number(rest),
                };
                self.add(selected(object, None, select))
            }
            _ => Ok(()),
        }
    }
}

// A design with an expression of these words, in that order.
fn design(alloc: Global, text: &str) -> Result<Option<(Design, ExprId)>, NoMemory> {
    let mut builder = Builder {
        alloc,
        objects: objects(alloc)?,
        exprs: Vec::new(alloc),
        stack: Vec::new(alloc),
        declared: Vec::new(alloc),
    };
    for word in text.split(' ') {
        builder.word(word)?;
    }
    let top = builder.pop();
    Ok(built(parts_of(alloc, builder)).map(|d| (d, top)))
}

fn parts_of(alloc: Global, builder: Builder) -> Parts {
    Parts {
        objects: builder.objects,
        exprs: builder.exprs,
        drivers: Vec::new(alloc),
        codes: Vec::new(alloc),
        bodies: Vec::new(alloc),
        waits: Vec::new(alloc),
        shows: Vec::new(alloc),
        stmts: Vec::new(alloc),
        precision: 9,
    }
}

fn built(parts: Parts) -> Option<Design> {
    if parts.objects.len() > 99 || parts.exprs.len() > 99 || parts.drivers.len() > 99 {
        return None;
    }
    if parts.codes.len() > 99 || parts.bodies.len() > 99 || parts.waits.len() > 99 {
        return None;
    }
    if parts.shows.len() > 99 || parts.stmts.len() > 99 {
        return None;
    }
    Design::build(parts)
}

fn value(text: &str) -> Vec4 {
    literal(text.as_bytes())
}

// The store of the design: a is 10100 1xz, b is 1001, and of the words 2 to 4 of m the first is 3 and the last 9.
fn store(alloc: Global, d: &Design) -> Result<Store, NoMemory> {
    let mut store = Store::new(alloc, d)?;
    store.write(whole(A), &value("8'b101001xz"));
    store.write(whole(B), &value("4'sb1001"));
    store.write(word(2), &value("4'd3"));
    store.write(word(4), &value("4'd9"));
    Ok(store)
}

fn whole(o: u32) -> Object {
    Object {
        id: ObjId::new(o),
        word: None,
    }
}

fn word(at: u32) -> Object {
    Object {
        id: ObjId::new(M),
        word: Some(at),
    }
}

// The digits of a value, the highest first.
fn text_of(alloc: Global, v: &Vec4) -> Result<Vec<u8>, NoMemory> {
    let mut text = Vec::new(alloc);
    for i in (0..v.width()).rev() {
        text.push(match v.digit(i) {
            Digit::Zero => b'0',
            Digit::One => b'1',
            Digit::X => b'x',
            Digit::Z => b'z',
        })?;
    }
    Ok(text)
}

// Whether the expression of a row has the row's digits in its context.
fn shows(alloc: Global, row: &str) -> Result<bool, NoMemory> {
    let Some((width, rest)) = row.split_once(' ') else {
        return Ok(false);
    };
    let Some((sign, rest)) = rest.split_once(' ') else {
        return Ok(false);
    };
    let Some((digits, text)) = rest.split_once(' ') else {
        return Ok(false);
    };
    let Some(v) = value_in(alloc, text, number(width.as_bytes()), sign == "s")? else {
        return Ok(false);
    };
    Ok(text_of(alloc, &v)?.as_slice() == digits.as_bytes())
}

// The value of an expression in a context of so many digits and this sign, or alone where the width is 0.
fn value_in(alloc: Global, text: &str, width: u32, signed: bool) -> Result<Option<Vec4>, NoMemory> {
    let Some((d, e)) = design(alloc, text)? else {
        return Ok(None);
    };
    if e.number() >= d.counts().exprs {
        return Ok(None);
    }
    let store = store(alloc, &d)?;
    let own = d.width(e);
    if width == 0 {
        return Ok(Some(eval(&d, &store, e, own, d.is_signed(e))));
    }
    if width < own || width > vh_logic::MAX_WIDTH {
        return Ok(None);
    }
    Ok(Some(eval(&d, &store, e, width, signed)))
}

// Expressions with their contexts and values, a line each: the context's width, 0 for none, its sign (s or u), the
// digits, and the expression, whose operators stand behind their operands. The first 131 were worked out by hand from IEEE 1364-2005,
// clause 5; the others are those of an independent implementation.
static ROWS: &str = "\
0 u 10xz 4'b10xz
8 u 000010xz 4'b10xz
8 s 11111010 4'sb1010
8 u 00001010 4'sb1010
6 s xxx010 4'sbx010
0 u 00000100 8'd250 8'd10 +
9 u 100000100 8'd250 8'd10 +
8 u 11111110 8'd3 8'd5 -
0 u 0100 4'd9 4'd3 4'd2 a-b-c
0 s 11111101 8'shf9 8'sd2 /
0 s 11111111 8'shf9 8'sd2 %
0 u 01111100 8'hf9 8'd2 /
0 u 01111100 8'shf9 8'd2 /
0 u xxxxxxxx 8'd5 8'd0 /
0 u xxxx 4'b1x00 4'd1 +
0 u 1111 4'd5 4'd3 *
8 u 00011001 4'd5 4'd5 *
0 u 00000000 8'd2 8'd9 **
10 u 1000000000 8'd2 8'd9 **
0 s 00000000 8'sd2 8'shff **
0 s 11111111 8'shff 8'shff **
0 s xxxxxxxx 8'sd0 8'shff **
0 u 1000 4'b1100 4'b10x1 &
0 u 11xx 4'b1100 4'b10xz |
0 u 0xx0 4'b1100 4'b1xz0 ^
0 u 1001 4'b1100 4'b1010 ^~
0 u 01xx 4'b10xz ~
6 u 111100 4'b0011 ~
0 u 1111 4'b0001 u-
8 u 11111111 4'b0001 u-
0 u 10x1 4'b10x1 u+
0 u 0 4'b10xz r&
0 u 1 4'b10xz r|
0 u 0 4'b1111 r^
0 u x 4'b00x0 r|
0 u x 4'b1x11 r&
0 u 0 4'b1111 r~&
0 u 1 4'b0000 r~|
0 u 0 4'b0111 r~^
0 u 1 4'b0000 !
0 u x 4'b00x0 !
0 u 0 4'b01x0 !
4 u 0001 4'b0000 !
0 u 1 4'd3 4'd12 <
0 u 0 4'sd3 4'shc <
0 u 1 4'sd3 4'hc <
0 u x 4'b1x00 4'd1 <
0 u 1 4'd3 4'd3 >=
0 u 0 4'd3 4'd4 >
0 u 1 4'd4 4'd4 <=
0 u 0 4'b10x0 4'b1100 ==
0 u x 4'b1x00 4'b1000 ==
0 u 1 4'b1x0z 4'b1x0z ===
0 u 1 4'b1x0z 4'b1x00 !==
0 u 1 4'd5 4'd6 !=
0 u 1 4'shf 8'shff ==
0 u 0 4'shf 8'hff ==
0 u 1 4'd5 4'd5 4'd1 a==b==c
0 u 0 4'd2 4'd0 &&
0 u 0 4'bxxxx 4'd0 &&
0 u 1 4'bxxxx 4'd1 ||
0 u x 4'b000x 4'd1 &&
0 u 0101 1'b1 4'd5 4'd9 ?:
8 u 00001001 1'b0 4'd5 4'd9 ?:
0 u 1xx0 1'bx 4'b1100 4'b10x0 ?:
0 u 0010 4'b1001 2'd1 <<
8 u 00010010 4'b1001 2'd1 <<
0 s 1100 4'sb1001 2'd1 >>>
0 u 0100 4'b1001 2'd1 >>>
0 s 0100 4'sb1001 2'd1 >>
0 u xxxx 4'b1001 1'bx <<
8 s 11111100 4'sb1001 2'd1 >>>
0 u 00000000 8'd1 4'shf <<<
0 u 10xz01 4'b10xz 2'b01 {}
8 s 00100001 4'sb1000 2'b01 {}
0 u 1z1z1z 2'b1z {3}
8 s 11111000 4'b1000 $signed
8 u 00001000 4'sb1000 $unsigned
0 u 101001xz a
8 s 11111001 b
0 u z 3'd0 a[]
0 u 1 3'd7 a[]
0 u x 4'd8 a[]
0 u x 1'bx a[]
0 u x 2'sb11 a[]
0 u 1 2'd0 b[]
0 u 0 2'd1 b[]
0 u 001 a:2:3
0 u xx10 3'd6 a+:4
0 u 1xzx 3'd2 a-:4
0 u 01 2'd2 b+:2
0 u 10 2'd1 b-:2
0 u 1x 2'd3 b+:2
0 u 0011 3'd2 m[]
0 u 1001 3'd4 m[]
0 u xxxx 3'd3 m[]
0 u xxxx 3'd5 m[]
0 u xxxx 3'd1 m[]
0 u 1 3'd4 2'd0 m[][]
0 u 1000 4'b10xz 4'b1100 &
0 u xxxx 4'b0001 4'b000x +
0 s 11111101 8'sd7 u- 8'sd2 /
0 u 1xxx 1'bx 4'b10xz 4'b1100 ?:
0 s 11111111 8'shff 8'shfd **
0 s 00000001 8'shff 8'sd2 **
0 s 00000001 8'sd1 8'shfd **
0 u 00000001 8'd3 8'd0 **
0 u 00000001 8'd0 8'd0 **
0 u 01010111 8'd7 8'd3 **
16 u 0000000101010111 8'd7 8'd3 **
0 u xxxx 4'bz 4'd1 *
0 u 01100100 8'd200 8'd2 /
0 u 00000100 8'd200 8'd7 %
0 s 00000010 8'sd100 8'shf9 %
0 s 11111110 8'sh9c 8'sd7 %
0 s 11110010 8'sh9c 8'sd7 /
0 u xxxxxxxx 8'd5 8'd0 %
0 u 0 4'b1z0x r&
0 u x 4'b1zx1 r&
0 u x 4'b00xz r~|
0 u x 4'b1x1z r^
0 u x 4'b1x00 4'b1x00 ==
0 u 0 4'b1x00 4'b0x00 ==
0 u x 4'b1x00 4'b1x00 !=
0 u 1 4'sb1111 4'sb0001 <
0 u 0 4'sb1111 4'b0001 <
0 s 01110000 4'sb1000 8'sd120 +
0 u 10000000 4'sb1000 8'd120 +
0 u 0000 4'b1111 4'b0001 + 1'd1 >>
5 u 01000 4'b1111 4'b0001 + 1'd1 >>
0 u xx 2'bz1 2'b0x ^~
64 u 0000000000000000000000000000000000000000000000000000000000001111 5'o17
40 u 0000000000000000000000000000000000001111 4'b1111
0 u 00000000 8'o0 {1}
47 u 00000000000000000000000000000000000000001010100 8'd84 {1}
0 u x 2'sBxx r~&
0 u 00000000000000000000000000000011 3 $unsigned
0 u 00000 5'h18 3 <<<
0 u 0000000 7'b0 $signed
0 u 000 1'o0 3'b001 *
47 u 0000000000000000000000000000000000000000001z11z 5'b1z11z 0 <<
32 s 11111111111111111111111111111111 65535 ~ 64 >>>
0 u xxxxxxx 7'ox $unsigned
0 u 0000000000001 13'b1 $unsigned
0 u 0x 2'b0x $unsigned
0 u 11111111 8'Sb11111111 {1}
48 u xxxxxxxxxxxxxxxxxxxxxxxxxxxxxxxxxxxxxxxxxxxxxxxx 8'bz 5'b0xx_00 +
0 u 000000000000000000000000000000000000000000000000000000011111110 255 63'b0 0 ** -
0 u zxxx 1'sbz p3:3 3 p-:4
0 u xxxxxxxxxxxxxxxxxxxxxxxx 7'h30 24'shx + u+
0 u zzzzzzzz 1'sbz 1'sbz {} {4}
0 u xxxxxxx 2'sb11 p1:0 3 p+:7
3 u 000 4'sb0100 p0:3 0 p[]
0 u 0 8'B10000000 {1} r~^
0 u 0000000 7'ox 2 u- ** 64 >>>
32 u 00000000000000000000000000000000 47'Sd1 r~| $unsigned
32 u 00000000000000000000000000000000 5'sb10000 p4:0 p:0:3
0 u 0000101 7'bzzz0101 3'Sb111 &
0 u xxxxxxxxxxxxxxxxxxxxxxxxxxxxxxxx 4'sbxx00 5 + $signed
0 u 00000 5'H0 3'so1 & $signed
2 u 01 1'b1 p0:0 p:0:1 ! r~&
0 u 11x11x10 2'sb01 8'b0z00z_00 ^~
0 u 0000000000000000000000000000000000000000000000000000000000000000 18446744073709551615 ~
0 u 00000001 8'b1 $unsigned $signed
0 u 1111111111111111101111111111xxxx 15'o40000 3 4'hx ^ ~ ^
0 u 000000000000z11000000000000z11000000000000z11000000000000z11 12'hfff ~ 3'bz11 {} {4}
0 u 0 4'sb0111 p3:0 6 3 - p[]
0 u 000000000001 12'b000000000001 $signed
0 u 0000000000000000000000000000000 5'sb00000 31'h2124ec1d &
0 u 0 32'd4031622580 r~^ 1 <<<
0 u x 2 64 >>> 4'sb1111 ** r~^
0 u 00000000000000000000000000000000 5 $signed 2'b01 $signed %
0 u 0 8'b00000010 p7:0 p:1:2 r~^
0 u x 5'b1 64'h1ff ^~ 31'hx r| <
0 u 0000000 7'b0000010 1 u- <<< 2 << u-
64 s 0000000000000000000000000000000000000000000000001001010011001100 17'b1001010011001100 $signed
32 u 00000000000000000000000000000000 2'b00 2'b00 p4:3 p:3:2 {4} *
0 u xxxxxxxxxxxxxxxx 8'hxx 16'b1111111111111111 -
0 u 0000000000000000 16'b1111111111111111 2 u- **
0 u zz 5'sbzzzzz p0:4 p:2:2 $signed
32 s 00000000000000000000010101001011 4'sb11_11 12'sb101010110101 *
0 u 0000000000000000000000000000000000000000000000000000000000000000 64'h0000000000000000 2'b10 **
0 u x 12'sh64d 2'sb00 4'sb1111 ** >
0 u 11 5'b01111 p0:4 p:3:2 $unsigned
0 u x 3'b010 p5:3 7 3 - p-:8 3 & r^
0 u x 12'sb101001100010 p11:0 51 p[]
63 u 000000000000000000000000000000000000000000000000000000000000001 5'sb00001 p4:0 p:0:5 $unsigned
8 u 00000000 63'sd1 4'd5 << 5'b1x110 r| ===
64 u 0000000000000000000000000000000000000000000000000000000000000000 16'bx000x0x0x000x000 8'd200 >>>
2 u 00 4'h8 16'b1111111111111111 >> r&
32 u 00000000000001110111111100000001 4'sb0111 8'b01111111 {} 8'h1 {}
0 u xxx 3'b1zz 7'bxxxxxxx p6:0 0 p-:2 -
0 u xxxxxxxxxxxxxxxxxxxxxxxxxxxxxxxx 10 7'sb0010001 p9:3 2 p[] ^~ 1 **
0 u x 4'sb0111 8'd64 ** 5'h4 1'sB0 % &&
0 u 000000000 4'shf r~| 9'b000000000 $unsigned +
0 u 1 7'b1101111 p6:0 1 p[] $unsigned r^
0 u 1 16'b0111110000000000 p15:0 p:5:6 r|
2 u 01 12'sbz1z00zz1x1z1 p0:11 8'd4 p[] r~^
0 u xxxxxxxxxxxxxxxxxxxxxxxxxxxxxxxxxxxxxxxxxxxxxxxxxxxxxxxxxxxxxxxx 64'd0 {1} 9'd255 1'bx ** ^~ 5'o0 >>>
64 s 0000000000000000000000000000000000000000000000000000000000000010 1'sB0 5'sb1 + 1'B1 << 1'b0 1'b0 != <<
0 u 0000000000000000000 1'sb0 9'b000000000 {} 9'b000000000 {}
32 u xxxxxxxxxxxxxxxxxxxxxxxxxxxxxxxx 8'd126 12'sb000000000000 p14:3 5 p[] /
0 u 00000000000001000011000011000001 32'sb00000000000000000000000001000001 3 **
0 u 10110011100100000010100101111010 32'sb10110011100100000010100101111010 0 <<
0 u xxxxxxxxxxxxxxxxxxxxxxxxxxxxxxxx 32'sbxxxxxxxxxxxxxxxxxxxxxxxxxxxxxxxx 5 ^~
0 u xxxxxxxxxxxxxxxxxxxxxxxxxxxxxxxx 32'sbzzzzzzzzzzzzzzzzzzzzzzzzzzzz0101 2 **
0 u x 3 3'b1zz p0:2 0 p-:3 < 13'bzzzzzzzzzzzzz ==
0 u 1 5 4'b0001 p3:0 0 p+:3 + 9'b000000000 r~& &&
0 u 1 3'sB100 255 << $signed 3'd7 8'd200 << r& ^ !
0 u 1x0xz0x1z1x1x01zx0zz0x001000zxz 31'B1x0xz0x1z1x1x01zx0zz0x001000zxz $unsigned
0 u 1 32'sb01111111111111111111111111111111 r~| r~^
0 u x 7'b0 ! 7'sbzzzzzz_z 18446744073709551615 >= &
0 u x00000001x 8'Bx0000000 1'sb1 {} 3'b111 p0:2 45 3 - p[] {}
0 u 1 16'b1111111111111111 p15:0 6 p[] 5'H1f 8'h1 - <=
0 u xxxxxxxx 7'b0000z00 12'bzzzzzzzz0101 / r~^ 8'sb11111z1z *
0 u 1 32'b010101111xx11xx11x11xxx1x1xx0100 p31:0 16 p[]
0 u 1 16'sb0z0zz10z11z11000 16'sb0z0zz10z11z11000 && r&
0 u 00000000111111111111111111111111 24'hffffff 32'sb00000000000000000000000000000000 |
0 u 0 33'b000110111111110101100101001000101 p32:0 p:9:23 !
0 u 0000000000000000000000000000000000000000 40'b1111111111111111111111111111111111111111 1 u- **
0 u xxxxxxxxxxxxxxxxxxxxxxxxxxxxxxxx 32'sb0111111111111111zz11111111111111 $signed 2 u+ +
0 u 0000000000000000000011111x111111 1'b1 65535 7'b0 & 12'b11111z111111 | 5'b01111 3 ** ?:
0 u 11111111111111111111111110111110 32'sb00000000000000000000000001000001 1'sB0 ^~ 1'sB0 <<<
0 u 000000000000000000000000000000001111111111111111000000000000000x 4294967296 17'b10000000000000000 - 3'b111 p0:2 5 p[] r& |
0 u xxxxxxxxxxxxxxxxxxxxxxxxxxxxxxxx000010001 32'sbxxxxxxxxxxxxxxxxxxxxxxxxxxxxxxxx 1'sB0 {} 8'o21 {} {1}
0 u 000 32'sb00000000000000000000000000000000 p31:0 29 p+:3 4'd9 **
2 u 0x 47'bz001z0011z111000z0z1111zz0z011z01011z0z11110100 1 ** r~&
0 u 00000x00x0xx0x0000x00xx000x0x0x000x0xx00 2'b0x 40'b100z0z10100001001100_0z0101000z0z100 3'b1z 64 << ?:
0 u 000000000000000000000000000000xx 8'sb000000x0 13'b0 {} 8'sb000000x0 ~ r~& 2 $signed $signed ?:
0 u xxxxxxxxxxxxxxxxxxxxxxxxxxxxxxxxxxxxxxxxxxxxxxxx 24'sbxxxxxxxxxxxxxxxxxxxxxxxx 24'sbxxxxxxxxxxxxxxxxxxxxxxxx {}
0 u 1 48'b0x000000x0000000x0000000000x00000x00x00x000000x 3'sb111 ||
0 u 0 31'b1000000000000000000000000000000 p30:0 p:12:7 32'so0 5 && ||
0 u xx0xxxx 2'b0x 7'b1101111 p6:0 6 p[] 7'b1101111 ?: 7'b0000010 1'bx >>> &
0 u 0 3'sbxxx $signed 2'sb01 p1:0 8'd0 p+:1 2'sb01 >>> | 8'd200 >>> r&
0 u x 9'b111010111 7'sb1111111 || {1} 24'sbx r~& 8'b11111111 {2} ^~ r~^ ^~
0 u 111111111111111111111111111111111111111111111111111111111111110 63'b000000000000000000000000000000000000000000000000000000000000001 ~
0 u 000xx0000000xx000000000000x0000000xxx0x00000000000x0000000x0x00 63'b0xx0000000xx000000000000x0000000xxx0x00000000000x0000000x0x00 {1}
0 u 0000000000000000000000000000000000000000000000000000000000000001 64'b0000000000000000000000000000000000000000000000000000000000000001 {1}
0 u 1111x 24'sb101110100011011000111001 p26:3 p:12:1 ~ 5'sb10100 3'bz01 + | $unsigned
0 u xxxxxxxxxxxxxxxxxxxxxxxxxxxxxxxxxxxxxxxxxxxxxxxxxxxxxxxxxxxxxxx 63'sbxxxxxxxxxxxxxxxxxxxxxxxxxxxxxxxxxxxxxxxxxxxxxxxxxxxxxxxxxxxxxxx 1'bx **
0 u 000x0000xx00000x00000x00xx0000x0000000x000000x0xx000xx00x0000000 64'b000x0000xx00000x00000x00xx0000x0000000x000000x0xx000xx00x0000000 $signed
0 u xxxxxxxxxxxxxxxxxxxxxxxxxxxxxxxxxxxxxxxxxxxxxxxxxxxxxxxxxxxxxxxx 64'bzzzzzzzzzzzzzzzzzzzzzzzzzzzzzzzzzzzzzzzzzzzzzzzzzzzzzzzzzzzzzzzz 2'b11 -
0 u xxxxxxxxxxxxxxxxxxxxxxxxxxxxxxx 2'b0x 31'b1000000000000000000000000000000 18115 >>> 4'bxx_xx 24'hea9374 + ?:
0 u xx 2'b00 64'b000000000000000000000000000000000000000011z11zz11z1111z1111111z1 >>
0 u xxxxxxxxxxxxxxxxxxxxxxxxxxxxxxxxxxxxxxxxxxxxxxxxxxxxxxxxxxxxxxxx 64'bxxxxxxxxxxxxxxxxxxxxxxxxxxxxxxxxxxxxxxxxxxxxxxxxxxxxxxxxxxxxxxxx 8'd64 **
0 u 00000 64'b0000000000000000000000000000000000000000001111110001000000000001 p63:0 49 p+:5
0 u 00000000000000000000000000000010 2'sb10 13341 % $unsigned 3'b0 p2:0 p:0:2 12'shx p11:0 11 p-:5 2'sb10 ?: 1 3 ^~ + *
0 u xxxxxxxxxxxxxxxxxxxxxxxxxxxxxxxxxxxxxxxxxxxxxxxxxxxxxxxxxxxxxxxx 64'b000000000000000000000000000000000000000011z11zz11z1111z1111111z1 4'b0 ** 4'sb1 *
0 u xxxxxxxxxxxxxxxxxxxxxxxxxxxxxxxxxxxxxxxxxxxxxxxxxxxxxxxxxxxxxxx 8'sd209 2'b1 >> 63'bxx1011010x10xx111x1x10x0x01101x011x1x11x1xxx011x0x10100001xxxx0 +
0 u 00000000000000000000000000000000 32'sb00000000000000000000000000000000 32'sb00000000000000000000000000000000 ^ u- 64 >>
0 u xxxxxxxxxxxxxxxxxxxxxxxxxxxxxxxxxxxxxxxxxxxxxxx 5'b1z11z 1 ** 5'b1z11z r^ 33'sb11zz0z1z0zzz0z01z1110z1110z1z0zz1 8'sd1 {} 6'h24 {} % %
0 u x 64'bxxxxxxxxxxxxxxxxxxxxxxxxxxxxxxxxxxxxxxxxxxxxxxxxxxxxxxxxxxxxxxxx 12'b110101100011 !=
0 u 0xx00xx0x0x0x0000xx00x0000000xx00x00x000xxxx0xxx0xxx00x00xxxx00x 1'bx 8'sb0x0x000x 64'b0110011010101000011001000000011001001000111101110111001001101000 ?:
0 u 1111111111111111111111111111111111111111111111111111111110111010 64'b0000000000000000000000000000000000000000000000000000000000000001 7'b1000101 1 ** u- ^
0 u 0000000000000000001001010000111000110111010110011101011101000010 47'sd70368744177663 64'b1100110000000110111001010000111000110111010110011101011101000010 &
0 u 1xx111xxx11x1111 48'sbzzzzzzzzzzzzzzzzzzzzzzzzzzzzzzzzzzzzzzzzzzzz0101 p50:3 11 p+:8 16'b1zz111zzz11z1111 |
0 u 10000010100000110000000011100101 17'Sh10506 47'sb00000000000000000000000000000000000000000000001 p49:3 8'd41 p-:7 {} 8'He5 {}
0 u 1 63'b000000000000000000000000000000000000000000000000000000111111111 64'H5c046c55a2777633 > ~
15 u 00000000000xxxx 32'sb00000000000000000000000000000000 r^ 32'sb00000000000000000000000000000000 p31:0 0 p-:4 u- {}
0 u x 16'sh55b6 64'b1100110000000110111001010000111000110111010110011101011101000010 & 5'sbzzzz_z u- ==
0 u 1111111111111111111111111 17'sb11111111111111111 p16:0 p:3:7 17'sb11111111111111111 p16:0 5 p[] {} 17'sb11111111111111111 {}
0 u 00000000 31'b1000000000000000000000000000000 p0:30 8 p[] 31'b1000000000000000000000000000000 p0:30 28 p-:8 ^
0 u x1xxx1xxxxxxxxxxxxxxxx 7'sbx1x0z1z $unsigned 3'sbz0 7'sb1000000 + | 15'b0?000??0?01100? 2'b11 >>> 2'b11 p0:1 0 p[] u- % {}
0 u 0000101100011100100111111000011001010101010001111011100101110001 2'd0 64'b10001100101001011000001011011101101010101010100101101101111100_00 ^~ 3 $signed ^~ 8'b1011 *
0 u xxxxxxxxxxxxxxxxxxxxxxxxxxxxxxxxxxxxxxxxxxxxxxxxxxxxxxxxxxxxxxxx 16'b0000000000000111 64'b0110x11101x1101x011x0100x0x1xx1xxxx1x10x0x001010x10xxx00x011xxx0 + $unsigned {1}
0 u 0000000000000000000000000000000000000000000000000000000000000000 64'b0110011010101000011001000000011001001000111101110111001001101000 4'd9 ** 12'sB100000000000 >> $signed
0 u 1 47'b00000000000000000000000000000000000000000000001 31'b1000000000000000000000000000000 p30:0 12 p[] <= r~^
0 u 0 32'sb01111111111111111111111111111111 p31:0 20 p+:1 32'sb00000000000000000000000000000000 p31:0 p:8:17 r^ &&
2 u 0x 2'sb01 18446744073709551615 | 64'Bz0xz1x011xzxx0x100z0zzzxzz1x1xx0x0x0xz1zzxx0z1z00zx0000z0z1zxzx1 1'bx ** !=
0 u xx 64'b0000000000000000000000000000000000000000000000000000000000000010 p63:0 1'bx p[] r~^ 1'bx p0:0 p:0:2 $signed +
0 u 00000000000000000000000000000000000000000000000000000000xxxx0x0x 8'sb0x0x000x p7:0 7 3 - p+:8 8'sb0x0x000x 64'b1111111111111111111111111111111111111111111111111111111111111111 & ^
0 u 00000xx0x0x0xxx0x0xxx000x00xxxxx000xxx0xx0xx000000x0000xx000xxxx 1'bx 1'bz 64'B0z1010z0zzz0z011z000z001zzz1000zz10z10z1000000z00001z00011z1 47'o1 ?: 64'd396930141589230583 1 u- ** ?:
0 u 0000000000000000000000000000000001111111111111111111111111111111 12'shfff 32'sb01111111111111111111111111111111 64'sbxx0101x0x111000111110111x1xx1xx00101001000x01100110x1x011x01x01x ?:
0 u x 64'b1111111111111111111111111111111111111111111111111111111111111111 1 u- ** 8'Sb1 2'Sb1x {} 17'b00000x00000000xx0 {} {2} * !
0 u 0000000000000000000000000000000000000000000000xxxxxxxxxxxxxxxxxx 1'bz 32'sb11111111111111111111111111111111 p0:31 p:26:18 64'b0000000000000000000000000000000000000000000000000000000000000000 ?:
0 u 0 32'sb00000000000000000000000000000000 p31:0 26 p-:8 1'Sd999 {} 3'b0 {} 32'sb00000000000000000000000000000000 16'b0 && && $signed
0 u 0110000011000100000000001111101 5'o17 2 ** 31'b1001111100111011111111110000011 32'sb00000000000000000000000000000000 >>> u- 31'b1001111100111011111111110000011 ?:
0 u xxxxxxxxxxxxxxxxxxxxxxxxxxxxxxxxxxxxxxxxxxxxxxxx 2'bxx 48'sbxxxxxxxxxxxxxxxxxxxxxxxxxxxxxxxxxxxxxxxxxxxxxxxx / 48'sbxxxxxxxxxxxxxxxxxxxxxxxxxxxxxxxxxxxxxxxxxxxxxxxx p47:0 p:22:20 >>
0 u 0111111111111111111111111 24'b000000000000000000000000 24'b000000000000000000000000 p23:0 p:6:2 > 24'b000000000000000000000000 24'b000000000000000000000000 ^~ {}
0 u xxxxxxxxxxxxxxxxxxxxxxxxxxxxxxxxxxxxxxxxxxxxxxxxxxxxxxxxxxxxxxxx 64'b0000000000000000000000000000000000000000000000000000000000000001 64'sbz1zz111zz11111z11111zzzz1z1111z111z111111z111111z1zz111111z11111 +
0 u 0000000000000000000000000000000000000000000000000000000000000001 2 8'sb0xxxxxxx 48'b100000000000000000000000000000000000000000000000 != 64'b0000000000000000000000000000000000000000000000000000000000001001 {1} ?:
0 u xxxxxxxxxxxxxxxxxxxxxxxxxxxxxxxx 64'b1111111111111111111111111111111111111111111111111111111111111111 r^ 32'sb01111111111111111111111111111111 32'b0x0xxxxx00001x001x100x10x0x01 ^ %
0 u 0000000000000000000000000000000000000000000000000000000000000000 2'sbzz p0:1 0 p+:3 64 << 64'sb1001101010111100011111101110001000111010110101000011000101111100 32'sb00000000000000000000000000000000 p31:0 19 p[] + *
0 u x 64'bzzzzzzzzzzzzzzzzzzzzzzzzzzzzzzzzzzzzzzzzzzzzzzzzzzzzzzzzzzzzzzzz 3'sb111 64'bzzzzzzzzzzzzzzzzzzzzzzzzzzzzzzzzzzzzzzzzzzzzzzzzzzzzzzzzzzzzzzzz - && u-
0 u xxxxxxxxxxxxxxxxxxxxxxxxxxxxxxxx 4'sbzzzz 32'sb11111111000000000000001111111111 p31:0 25 p[] {} 8'so160 {} 32'sb11111111000000000000001111111111 32'sb11111111000000000000001111111111 | +
0 u 0 63'b111111011000011001000100011110110010111111101001101011001111111 p65:3 55 p[] 63'b111111011000011001000100011110110010111111101001101011001111111 >= $signed
0 u 00000000 1'b1 2'b11 255 && 8'd1 ^ 2'b11 $unsigned 17'b01z00010zz0001010 $signed <= ?: 64'b1111111111111111111111111111111111111111111111111111111111111111 7'sd63 == {1} -
0 u 000000000000000000001111111111111111111111111111111111111111111 63'sb111111111111111111111111111111111111111111111111111111111111111 p62:0 p:9:43 63'sb111111111111111111111111111111111111111111111111111111111111111 & 0 $unsigned +
0 u 0 64'bzzzzzzzzzzzzzzzzzzzzzzzzzzzzzzzzzzzzzzzzzzzzzzzzzzzzzzzzzzzzzzzz p63:0 2'b1z p[] 7'b0000000 < 64'b1111111111111111111111111111111111111111111111111111111111111111 == 8'd64 **
0 u xxxxxxxxxxxxxxxxxxxxxxxxxxxxxxxx 7'bzz0z000 $signed 32'sbzzzzzzzzzzzzzzzzzzzzzzzzzzzzzzzz | 32'sbzzzzzzzzzzzzzzzzzzzzzzzzzzzzzzzz 32'sb10000000000000000000000000000000 32'sbzzzzzzzzzzzzzzzzzzzzzzzzzzzzzzzz & ^ |
0 u 00000000000000000000000000000000000000000000000 47'sb10000000000000000000000000000000000000000000000 64'b1000000000000000000000000000000000000000000000000000000000000000 47'sb10000000000000000000000000000000000000000000000 == &
0 u 000000000000000000000000000000000 3'b11 64'b0000000000000000000000000000000000000000000000000000000000000001 p63:0 p:5:13 + 64'b0000000000000000000000000000000000000000000000000000000000000001 p63:0 p:20:33 8'd64 ** *
0 u 00000000000000000000000000000000 32'sb11111111111111111111111111111111 32'sbxxxx0000xxxxxxxxxxxxxxxxxxxxxxx1 ^ 48'b000000000000000000000000000001000000000000000001 48'b000000000000000000000000000001000000000000000001 || | 1 u- >>>
0 u xxxxxxxxxxxxxxxxxxxxxxxxxxxxxxxx 3'b101 24'b1011z000zz0101zzz0z1z0 3'hx ?: 8'd200 >>> 5'b0x000 p7:3 1 p-:8 r& 16'Sb0xxx000000xx {} 2147483647 1'b0 3'b101 p5:3 8'd7 p+:6 5'b0x000 p7:3 8'd6 p+:3 ?: - 1'Sdx 3'b101 p5:3 5 p+:3 64 >> || ^ ?:
0 u xxxxxxxxxxxxxxxxxxxxxxxxxxxxxxxxxxxxxxxxxxxxxxxxxxxxxxxxxxxxxxxx 64'b0110011010101000011001000000011001001000111101110111001001101000 64'b0110011010101000011001000000011001001000111101110111001001101000 24'b11000x101x0xxx1101x1xxx1 == & 2'sb11 p0:1 p:1:1 8'sb0x0x000x >>> /
64 u 0000000000000000000000000000000000000000000000000000000000000000 63'b000000000000000000000000000000000000000000000000000000000000000 r~& 1'bx 1'b1 & 63'b000000000000000000000000000000000000000000000000000000000000000 p62:0 11 p[] 64'b0000000000000000000000000000000000000000000000000000000000000000 ?: ===
0 u 1 63'o377777777777777777777 31'd999 < r| 3'sb11 | 63'bxxxxxxxxxxxxxxxxxxxxxxxxxxxxxxxxxxxxxxxxxxxxxxxxxxxxxxxxxxxxxx1 8'o52 & 7'sb0011z10 p6:0 p:3:4 $unsigned || 12'sh800 {1} 32'sb00000000000000000000000000000000 p31:0 p:15:16 32'sb1z11zx100zz1xzzx101xx0z0zzxx1001 p31:0 25 p+:2 {} 8'd999 {} > !== >
0 u xxxxxxxxxxxxxxxxxxxxxxxxxxxxxxxxxxxxxxxxxxxxxxxxxxxxxxxxxxxxxxxx 4'sh0 5'sb01111 ^~ 48'sb000000000000000000000000000000000000000000000000 p47:0 p:27:9 ~ & 24'h7fffff 17'bxx111xxx1xxx11x0x {} > 31'o1 r~^ 64'sb1 48'sb000000000000000000000000000000000000000000000000 63'sbxxxxxxxxxxxxxxxxxxxxxxxxxxxxxxxxxxxxxxxxxxxxxxxxxxxxxxxxxxxxxxx & ^ 7'o0 1 u- ** 5'sb01111 p4:0 p:4:1 7'b0zz1z1z >>> >= ?: +
0 u xxxxxxxxxxxxxxxxxxxxxxxxxxxxxxxxxxxxxxxxxxxxxxxx 1'bx 1'b1 & 48'sbzzzzzzzzzzzzzzzzzzzzzzzzzzzzzzzzzzzzzzzzzzzz0101 48'sbzzzzzzzzzzzzzzzzzzzzzzzzzzzzzzzzzzzzzzzzzzzz0101 p50:3 34 3 - p[] 48'sbzzzzzzzzzzzzzzzzzzzzzzzzzzzzzzzzzzzzzzzzzzzz0101 ?: 48'sbzzzzzzzzzzzzzzzzzzzzzzzzzzzzzzzzzzzzzzzzzzzz0101 48'sbzzzzzzzzzzzzzzzzzzzzzzzzzzzzzzzzzzzzzzzzzzzz0101 p50:3 4'sb1111 p+:7 ^~ ?: 2'bx1 *
0 u 000000000000000000000000000000000000000000000000000000000000000x 1'b0 64'bzzzzzzzzzzzzzzzzzzzzzzzzzzzzzzzzzzzzzzzzzzzzzzzzzzzzzzzzzzzzzzzz 65535 / 64'bzzzzzzzzzzzzzzzzzzzzzzzzzzzzzzzzzzzzzzzzzzzzzzzzzzzzzzzzzzzzzzzz % 64'bzzzzzzzzzzzzzzzzzzzzzzzzzzzzzzzzzzzzzzzzzzzzzzzzzzzzzzzzzzzzzzzz 40'b1111111111111111111111111111111111111111 ^~ 40'b1111111111111111111111111111111111111111 p39:0 7 p-:2 && ?: $unsigned
0 u 0000000000000000000000000000000000000000000000000000000000000000 64'sb1111001xxxxxxx1000xxxxx00xx1xx10x111x1xx0xx101x1001x11011001x11x 4'dx 64'b1000000000000000000000000000000000000000000000000000000000000000 p63:0 p:9:42 & 2'B10 | >= $unsigned 4'sbzzzz p0:3 p:1:2 64'b1000000000000000000000000000000000000000000000000000000000000000 - 1 u- >>> 12'Sd2730 40'b1000011001101000000101011100111010111000 r~& - * &
0 u xxxxxxxxxxxxxxxxxxxxxxxxxxxxxxxx 24'b000000000000000000000000 p23:0 p:2:11 24'b000000000000000000000000 p23:0 14 p[] - 24'b000000000000000000000000 - 24'b000000000000000000000000 p23:0 26 p[] 0 ^~ | u- 32'sb01111111111111111111111111111111 7'sb0x0_xxx1 24'b000000000000000000000000 p23:0 8'd24 p[] ?: 32'sb01111111111111111111111111111111 32'sb01111111111111111111111111111111 && && r^ ^~";

// The first row whose expression has other digits.
fn wrong_row(alloc: Global, rows: &str) -> Result<Option<usize>, NoMemory> {
    for (i, row) in rows.split('\n').enumerate() {
        if !shows(alloc, row)? {
            return Ok(Some(i));
        }
    }
    Ok(None)
}

#[test]
fn values_of_expressions(rt: HostRuntime) -> Result<(), Fail> {
    assert_eq!(rt; wrong_row(rt.alloc(), ROWS)?, None);
    Ok(())
}

// `$time` over the unit, a half rounded up, of a time in ns: in ns, in us and in 10 ns.
#[test]
fn times_are_rounded(rt: HostRuntime) -> Result<(), Fail> {
    let alloc = rt.alloc();
    for (time, unit, wanted) in [
        (1500, 9, 1500),
        (1500, 12, 2),
        (1499, 12, 1),
        (25, 10, 3),
        (24, 10, 2),
    ] {
        assert!(rt; time_shows(alloc, time, unit)? == Some(wanted));
    }
    Ok(())
}

fn time_shows(alloc: Global, time: u64, unit: u8) -> Result<Option<u64>, NoMemory> {
    let mut builder = Builder {
        alloc,
        objects: objects(alloc)?,
        exprs: Vec::new(alloc),
        stack: Vec::new(alloc),
        declared: Vec::new(alloc),
    };
    builder.add(ExprKind::Time { unit })?;
    let Some(d) = built(parts_of(alloc, builder)) else {
        return Ok(None);
    };
    if d.counts().exprs == 0 {
        return Ok(None);
    }
    let mut store = Store::new(alloc, &d)?;
    store.set_time(time);
    let e = ExprId::new(0);
    Ok(eval(&d, &store, e, d.width(e), false).number())
}

// What a call answered last is its value; a change is told where the shown value is another.
#[test]
fn stores_tell_changes(rt: HostRuntime) -> Result<(), Fail> {
    let alloc = rt.alloc();
    let (d, _) = design(alloc, "a")?.expect(&rt, "every rule is kept");
    let mut store = Store::new(alloc, &d)?;
    let change = store
        .write(whole(A), &value("8'd5"))
        .expect(&rt, "x becomes 5");
    assert!(rt; change.new.number() == Some(5) && change.old.number().is_none());
    assert!(rt; store.write(whole(A), &value("8'd5")).is_none());
    assert!(rt; store.write(word(5), &value("4'd1")).is_none());
    assert!(rt; store.write(word(2), &value("4'd1")).is_some());
    assert!(rt; store.shown(word(2)).number() == Some(1));
    Ok(())
}
