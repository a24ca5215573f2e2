use std::alloc::Global;
use std::test::Fail;
use vh_base::{Bytes, ExprId, NoMemory, ObjId, Sequence, ShowId};
use vh_design::{
    Chosen, Design, Detail, ExprKind, ExprNode, Kind, Name, ObjectInfo, Parts, Select, Selected,
    ShowArg, ShowCall, ShowTask,
};
use vh_display::{reads, show};
use vh_logic::{Digit, Vec4};
use vh_store::Store;
use vh_text::read_literal;

// The register `q`.
const Q: u32 = 2;

// A module `top` with a block `blk` and a register, in units of 1,000 times the precision.
fn objects(alloc: Global) -> Result<Vec<ObjectInfo>, NoMemory> {
    let mut all = Vec::new(alloc);
    let detail = Detail::Module(Name::from_slice(alloc, b"top")?);
    all.push(object(alloc, Kind::Module, b"top", None, detail)?)?;
    let scope = Some(ObjId::new(0));
    all.push(object(alloc, Kind::NamedBegin, b"blk", scope, Detail::Plain)?)?;
    all.push(object(alloc, Kind::Reg, b"q", scope, Detail::Plain)?)?;
    Ok(all)
}

fn object(
    alloc: Global,
    kind: Kind,
    name: &[u8],
    parent: Option<ObjId>,
    detail: Detail,
) -> Result<ObjectInfo, NoMemory> {
    Ok(ObjectInfo {
        kind,
        name: Name::from_slice(alloc, name)?,
        parent,
        width: 1,
        signed: false,
        words: 0,
        line: 1,
        detail,
    })
}

// A literal's value; one z digit for what is none.
fn literal(bytes: &[u8]) -> Vec4 {
    match read_literal(bytes) {
        Ok(v) => v,
        Err(_) => Vec4::filled(1, Digit::Z, false),
    }
}

// A number, or the register.
fn node(field: &[u8]) -> ExprNode {
    if field == b"q".as_slice() {
        let of = Chosen {
            object: ObjId::new(Q),
            word: None,
        };
        let select = Select::Whole;
        return ExprNode {
            kind: ExprKind::Selected(Selected { of, select }),
            width: 1,
            signed: false,
        };
    }
    let v = literal(field);
    ExprNode {
        width: v.width(),
        signed: v.is_signed(),
        kind: ExprKind::Literal(v),
    }
}

// An argument: a format in quotes, none for a point, or a value.
fn argument(alloc: Global, exprs: &mut Vec<ExprNode>, field: &[u8]) -> Result<ShowArg, NoMemory> {
    match field {
        [b'.'] => Ok(ShowArg::Empty),
        [b'"', format @ .., b'"'] => Ok(ShowArg::Format(Bytes::from_slice(alloc, format)?)),
        _ => {
            let e = ExprId::new(u32::try_from(exprs.len()).unwrap_or(0));
            exprs.push(node(field))?;
            Ok(ShowArg::Value(e))
        }
    }
}

// A design with a display call of these arguments, which stand between tabs.
fn design(alloc: Global, task: ShowTask, fields: &str) -> Result<Option<Design>, NoMemory> {
    let mut exprs = Vec::new(alloc);
    let mut args = Vec::new(alloc);
    if !fields.is_empty() {
        for field in fields.split('\t') {
            args.push(argument(alloc, &mut exprs, field.as_bytes())?)?;
        }
    }
    let mut shows = Vec::new(alloc);
    shows.push(ShowCall {
        task,
        scope: ObjId::new(1),
        unit: 9,
        args: Sequence::new(args),
    })?;
    Ok(built(Parts {
        objects: objects(alloc)?,
        exprs,
        drivers: Vec::new(alloc),
        codes: Vec::new(alloc),
        bodies: Vec::new(alloc),
        waits: Vec::new(alloc),
        shows,
        stmts: Vec::new(alloc),
        precision: 6,
    }))
}

fn built(parts: Parts) -> Option<Design> {
    if parts.objects.len() > 99 || parts.exprs.len() > 99 || parts.drivers.len() > 99 {
        return None;
    }
    if parts.codes.len() > 99 || parts.bodies.len() > 99 || parts.waits.len() > 99 {
        return None;
    }
    if parts.shows.len() > 99 || parts.stmts.len() > 99 {
        return None;
    }
    Design::build(parts)
}

// The text of such a call; none where it stands in no design.
fn text(alloc: Global, task: ShowTask, fields: &str) -> Result<Option<Bytes>, NoMemory> {
    let Some(d) = design(alloc, task, fields)? else {
        return Ok(None);
    };
    if d.counts().shows == 0 {
        return Ok(None);
    }
    let store = Store::new(alloc, &d)?;
    Ok(Some(show(alloc, &d, &store, ShowId::new(0))?))
}

// Whether a call shows this text, without the end of a line.
fn shows(alloc: Global, fields: &str, wanted: &str) -> Result<bool, NoMemory> {
    match text(alloc, ShowTask::Write, fields)? {
        Some(shown) => Ok(shown.as_slice() == wanted.as_bytes()),
        None => Ok(false),
    }
}

// Texts and the calls that show them, a line each, with tabs between the arguments. The first 36 are those of an
// independent implementation; the others were worked out by IEEE 1364-2005, 17.1.
static ROWS: &str = "\
a b      40213 \t\"a\"\t.\t\"b\"\t40213\t.
255000 11111111 377\t\"%0t %0b %3o\"\t255\t255\t255
9223372036854775807000\t\"%t\"\t64'b111111111111111111111111111111111111111111111111111111111111111

a b 32 \t\"a\"\t.\t\"b\"\t8'b00100000\t.
0000000000037777777777\t\"%o\"\t4294967295
a b-1 \t\"a\"\t.\t\"b\"\t3'Sb111\t.
1\t\"%0O\"\t1'sb1
1\t\"%h\"\t2'sb1
0\t\"%0b\"\t2'b00
a b2 \t\"a\"\t.\t\"b\"\t2'o2\t.
a b 2147483647 \t\"a\"\t.\t\"b\"\t2147483647\t.
Z Z  Z\t\"%0t %0d %2d\"\t47'b1111z11111111111111111111111111111z11111z111111\t47'b1111z11111111111111111111111111111z11111z111111\t47'b1111z11111111111111111111111111111z11111z111111
0\t\"%0h\"\t24'b000000000000000000000000
\t\"\"
11 0000011 3\t\"%0b %b %0H\"\t7'b0000011\t7'b0000011\t7'b0000011
               -1000\t\"%t\"\t17'sb11111111111111111
0\t\"%0o\"\t3'b000
  Z|                  7f\t\"%d|%20H\"\t8'b111z_1111\t8'so177
    1\t\"%5o\"\t1'd1
    X|09f914d28\t\"%5t|%h\"\t16'bx000000000000x0_0\t33'sb10011111100100010100110100101000
            |z0101\t\"%12s|%b\"\t9'b000000000\t5'hz5
0\t\"%0b\"\t0
a b  8 \t\"a\"\t.\t\"b\"\t8'b00001000\t.
00000000000000000110111010101000             28328000\t\"%b %t\"\t28328\t28328
a b                   6 \t\"a\"\t.\t\"b\"\t63'sb110\t.
11000    11\t\"%0t %d\"\t15'b1011\t15'b1011
1\t\"%0b\"\t8'b00000001
  X\t\"%d\"\t8'bzx0z10z0
 1\t\"%d\"\t2'sb01
zz0 Z\t\"%0B %0t\"\t4'b0zz0\t4'b0zz0
1 1 1\t\"%0h %o %0h\"\t1'sb1\t1'sb1\t1'sb1
                   Z                    Z\t\"%t %d\"\t64'b1zz1z11z1111111111111111111z1z111111z11111111z111111111zz1111111\t64'b1zz1z11z1111111111111111111z1z111111z11111111z111111111zz1111111
57320\t\"%0o\"\t24272
Z 1z101111 0Zf\t\"%0t %0b %h\"\t9'b1z101_111\t9'b1z101_111\t9'b1z101_111
0\t\"%h\"\t1'd0
1000 xxxx -3 xXf\t\"%b %b %0d %h\"\t4'b1000\t4'bxxxx\t8'shfd\t12'bxxxx00zx1111
10100101\t\"%b\"\t8'b10100101
245\t\"%o\"\t8'b10100101
a5\t\"%h\"\t8'b10100101
1010010\t\"%b\"\t7'b1010010
122\t\"%o\"\t7'b1010010
52\t\"%h\"\t7'b1010010
xxxxxxxx\t\"%b\"\t8'bxxxxxxxx
xxx\t\"%o\"\t8'bxxxxxxxx
xx\t\"%h\"\t8'bxxxxxxxx
zzzzzzzz\t\"%b\"\t8'bzzzzzzzz
zzz\t\"%o\"\t8'bzzzzzzzz
zz\t\"%h\"\t8'bzzzzzzzz
1010xxxx\t\"%b\"\t8'b1010xxxx
2Xx\t\"%o\"\t8'b1010xxxx
ax\t\"%h\"\t8'b1010xxxx
10x0zz01\t\"%b\"\t8'b10x0zz01
2XZ\t\"%o\"\t8'b10x0zz01
XZ\t\"%h\"\t8'b10x0zz01
zzzz00z1\t\"%b\"\t8'bzzzz00z1
zZZ\t\"%o\"\t8'bzzzz00z1
zZ\t\"%h\"\t8'bzzzz00z1
x1010\t\"%b\"\t5'bx1010
X2\t\"%o\"\t5'bx1010
xa\t\"%h\"\t5'bx1010
z00000000\t\"%b\"\t9'bz00000000
Z00\t\"%o\"\t9'bz00000000
z00\t\"%h\"\t9'bz00000000
1\t\"%b\"\t1'b1
1\t\"%o\"\t1'b1
1\t\"%h\"\t1'b1
1111111011011100101110101001100001110110010101000011001000010000\t\"%b\"\t64'hfedcba9876543210
1773345651416625031020\t\"%o\"\t64'hfedcba9876543210
fedcba9876543210\t\"%h\"\t64'hfedcba9876543210
  0\t\"%d\"\t8'd0
[0]\t\"[%0d]\"\t8'd0
200\t\"%d\"\t8'd200
[200]\t\"[%0d]\"\t8'd200
 100\t\"%d\"\t8'sd100
[100]\t\"[%0d]\"\t8'sd100
-128\t\"%d\"\t8'sh80
[-128]\t\"[%0d]\"\t8'sh80
 -1\t\"%d\"\t4'shf
[-1]\t\"[%0d]\"\t4'shf
1\t\"%d\"\t1'b1
[1]\t\"[%0d]\"\t1'b1
-1\t\"%d\"\t1'sb1
[-1]\t\"[%0d]\"\t1'sb1
18446744073709551615\t\"%d\"\t64'd18446744073709551615
[18446744073709551615]\t\"[%0d]\"\t64'd18446744073709551615
 -9223372036854775808\t\"%d\"\t64'sh8000000000000000
[-9223372036854775808]\t\"[%0d]\"\t64'sh8000000000000000
4000000000\t\"%d\"\t32'd4000000000
[4000000000]\t\"[%0d]\"\t32'd4000000000
    x\t\"%d\"\t16'bxxxxxxxxxxxxxxxx
[x]\t\"[%0d]\"\t16'bxxxxxxxxxxxxxxxx
    z\t\"%d\"\t16'bzzzzzzzzzzzzzzzz
[z]\t\"[%0d]\"\t16'bzzzzzzzzzzzzzzzz
    X\t\"%d\"\t16'b0000x000000000z0
[X]\t\"[%0d]\"\t16'b0000x000000000z0
    Z\t\"%d\"\t16'b00000000000000z0
[Z]\t\"[%0d]\"\t16'b00000000000000z0
10110|\t\"%0b|\"\t8'b00010110
0|\t\"%0b|\"\t8'b00000000
x1zzzz|\t\"%0b|\"\t8'b00x1zzzz
26|\t\"%0o|\"\t8'b00010110
0|\t\"%0o|\"\t8'b00000000
Xz|\t\"%0o|\"\t8'b00x1zzzz
16|\t\"%0h|\"\t8'b00010110
0|\t\"%0h|\"\t8'b00000000
Xz|\t\"%0h|\"\t8'b00x1zzzz
       10110|\t\"%12b|\"\t8'b00010110
           0|\t\"%12b|\"\t8'b00000000
      x1zzzz|\t\"%12b|\"\t8'b00x1zzzz
   26|\t\"%5o|\"\t8'b00010110
    0|\t\"%5o|\"\t8'b00000000
   Xz|\t\"%5o|\"\t8'b00x1zzzz
    16|\t\"%6h|\"\t8'b00010110
     0|\t\"%6h|\"\t8'b00000000
    Xz|\t\"%6h|\"\t8'b00x1zzzz
 16|\t\"%3h|\"\t8'b00010110
  0|\t\"%3h|\"\t8'b00000000
 Xz|\t\"%3h|\"\t8'b00x1zzzz
10110|\t\"%1b|\"\t8'b00010110
0|\t\"%1b|\"\t8'b00000000
x1zzzz|\t\"%1b|\"\t8'b00x1zzzz
       22|\t\"%9d|\"\t8'b00010110
        0|\t\"%9d|\"\t8'b00000000
        X|\t\"%9d|\"\t8'b00x1zzzz
22|\t\"%1d|\"\t8'b00010110
0|\t\"%1d|\"\t8'b00000000
X|\t\"%1d|\"\t8'b00x1zzzz
0101 17 3c   7 A AB                12000 top.blk %\t\"%B %O %H %D %C %S %T %M %%\"\t4'b0101\t6'o17\t8'h3c\t8'd7\t8'd65\t16'h4142\t16'd12
               12000|\t\"%t|\"\t16'd12
               -1000|\t\"%t|\"\t8'shff
18446744073709551615000|\t\"%t|\"\t64'd18446744073709551615
-9223372036854775808000|\t\"%t|\"\t64'sh8000000000000000
                   x|\t\"%t|\"\t8'bx
                   z|\t\"%t|\"\t8'bz
                   X|\t\"%t|\"\t8'b1x
                   0|\t\"%t|\"\t1'b0
12000|\t\"%0t|\"\t16'd12
-128000|\t\"%0t|\"\t8'sh80
12000|\t\"%3t|\"\t16'd12
-128000|\t\"%3t|\"\t8'sh80
                         12000|\t\"%30t|\"\t16'd12
                       -128000|\t\"%30t|\"\t8'sh80
ABC|\t\"%s|\"\t24'h414243
ABC|\t\"%s|\"\t32'h00414243
A\x00B\x00|\t\"%s|\"\t32'h41004200
|\t\"%s|\"\t8'h00
A|\t\"%s|\"\t16'hxx41
\x01A|\t\"%s|\"\t12'h141
@A|\t\"%s|\"\t16'h4z41
ABCDEFGH|\t\"%s|\"\t64'h4142434445464748
A|\t\"%c|\"\t8'd65
B|\t\"%c|\"\t16'h4142
A|\t\"%c|\"\t7'b100x001
\x01|\t\"%c|\"\t1'b1
~|\t\"%c|\"\t8'h7e
  AB|AB|ABC\t\"%4s|%0s|%2s\"\t16'h4142\t16'h4142\t24'h414243
  A|B\t\"%3c|%0c\"\t8'd65\t8'd66
top.blk\t\"%m\"
top.blk|   top.blk|top.blk\t\"%0m|%10m|%3m\"
100% of  9\t\"100%% of %d\"\t4'd9
% 9%\t\"%%%d%%\"\t4'd9
 9\t4'd9
 9   5x\t4'd9\t8'sd5\t1'bx
 \t.
  \t.\t.
a b\t\"a\"\t.\t\"b\"
5 10   3\t\"%d\"\t3'd5\t\" %b \"\t2'b10\t8'd3
no conversion\t\"no conversion\"
\t\"\"
0 17tail ab\t\"%b\"\t1'b0\t8'd17\t\"tail %h\"\t8'hAB
 1 2 3\t\"%d%d%d\"\t4'd1\t4'd2\t4'd3
x  101yf0z\t\"x%5by%0hz\"\t3'b101\t16'h00f0
0x z1   1\t\"%b %b\"\t2'b0x\t2'bz1\t.\t8'd1
a%btop.blkc%\t\"a%%b%mc%%\"";

// The first row whose call shows another text.
fn wrong_row(alloc: Global, rows: &str) -> Result<Option<usize>, NoMemory> {
    for (i, row) in rows.split('\n').enumerate() {
        let (wanted, fields) = row.split_once('\t').unwrap_or((row, ""));
        if !shows(alloc, fields, wanted)? {
            return Ok(Some(i));
        }
    }
    Ok(None)
}

#[test]
fn texts_of_calls(rt: HostRuntime) -> Result<(), Fail> {
    let alloc = rt.alloc();
    assert_eq!(rt; wrong_row(alloc, ROWS)?, None);
    for (task, wanted) in [
        (ShowTask::Display, b"a5\n".as_slice()),
        (ShowTask::Strobe, b"a5\n"),
        (ShowTask::Monitor, b"a5\n"),
        (ShowTask::Write, b"a5"),
    ] {
        let shown = text(alloc, task, "\"a%0d\"\t3'd5")?.expect(&rt, "every rule is kept");
        assert!(rt; shown.as_slice() == wanted);
    }
    Ok(())
}

// Whether a call reads an object.
fn is_read(alloc: Global, fields: &str, o: u32) -> Result<bool, NoMemory> {
    let Some(d) = design(alloc, ShowTask::Monitor, fields)? else {
        return Ok(false);
    };
    Ok(d.counts().shows > 0 && reads(&d, ShowId::new(0), ObjId::new(o)))
}

#[test]
fn a_call_reads_what_its_arguments_read(rt: HostRuntime) -> Result<(), Fail> {
    let alloc = rt.alloc();
    assert!(rt; is_read(alloc, "\"%b %b\"\t3'd5\tq", Q)?);
    assert!(rt; !is_read(alloc, "\"%b %b\"\t3'd5\tq", 1)?);
    assert!(rt; !is_read(alloc, "\"q\"\t.\t3'd5", Q)?);
    Ok(())
}
