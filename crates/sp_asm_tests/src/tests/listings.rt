//! Sources with their statements and names.
use super::assembled;
use sp_asm::Item;
use sp_base::{Line, Name};
use sp_expr::Symbols;
use std::alloc::Global;
use std::process::Abort;
use std::test::Fail;

fn push_name(text: &mut String, name: Name) -> Result<(), Fail> {
    for byte in name.as_slice() {
        text.push(char::from(*byte))?;
    }
    Ok(())
}

/// The line of an item, its address, its label and its kind.
fn item_shown(alloc: Global, item: &Item) -> Result<String, Fail> {
    let Line(line) = item.line;
    let address = item.addr;
    let kind = item.kind;
    let mut text = format!(in alloc; "{line} {address:04X} ")?;
    if let Some(label) = item.label {
        push_name(&mut text, label)?;
        text.push_str(": ")?;
    }
    text.push_str(format!(in alloc; "{kind:?}")?.as_str())?;
    Ok(text)
}

/// The names in order, each with its value.
fn names_shown(alloc: Global, names: &Symbols) -> Result<String, Fail> {
    let mut text = String::new(alloc);
    for (name, value) in names {
        push_name(&mut text, *name)?;
        text.push_str(format!(in alloc; "={value};")?.as_str())?;
    }
    Ok(text)
}

/// Whether a source has these items and names.
fn expect_listing(
    rt: &impl Abort,
    alloc: Global,
    source: &[u8],
    items: &[&str],
    names: &str,
) -> Result<(), Fail> {
    let listing = assembled(rt, alloc, source)??;
    let found = listing.items.as_slice();
    assert_eq!(rt; found.len(), items.len());
    for (item, want) in found.iter().zip(items) {
        let shown = item_shown(alloc, item)?;
        assert_eq!(rt; shown.as_str(), *want);
    }
    let shown = names_shown(alloc, &listing.names)?;
    assert_eq!(rt; shown.as_str(), names);
    Ok(())
}

/// A source with each kind of statement.
static SOURCE: &[u8] = b"X EQU 5
Y SET 1
L1:
 ORG 100H
; a comment

;# an annotation
L2: MVI A,X
 DB 'A',Y
L3: DW L2
l4 : DS 2
Y SET Y+1
 JMP L2
 RST 3
L5: MOV M,A
 END L2
L6: NOP
";

static ITEMS: [&str; 13] = [
    "1 0000 Other",
    "2 0000 Other",
    "3 0000 L1: Label",
    "4 0000 Org",
    "8 0100 L2: Instr(Mvi(Reg(A), 5))",
    "9 0102 Bytes",
    "10 0104 L3: Bytes",
    "11 0106 L4: Space",
    "12 0108 Other",
    "13 0108 Instr(Jmp(256))",
    "14 010B Instr(Rst(3))",
    "15 010C L5: Instr(Mov(M, Reg(A)))",
    "16 010D Other",
];

#[test]
fn sources_have_their_listings(rt: HostRuntime) -> Result<(), Fail> {
    let alloc = rt.alloc();
    expect_listing(&rt, alloc, b"", &[], "")?;
    expect_listing(
        &rt,
        alloc,
        SOURCE,
        &ITEMS,
        "X=5;Y=2;L1=0;L2=256;L3=260;L4=262;L5=268;",
    )?;
    let end = [
        "1 0000 Org",
        "2 FFFF L1: Bytes",
        "3 10000 Other",
        "4 10000 Space",
        "5 10000 Other",
    ];
    expect_listing(
        &rt,
        alloc,
        b"ORG 0FFFFH\nL1: DB 1\nX SET $\nDS 0\nEND",
        &end,
        "L1=65535;X=0;",
    )
}
