use sp_asm::assemble;
use sp_lex::lines;
use sp_note::read_notes;
use sp_prog::{Lists, Noted, Routine, Stmt, Unit};
use sp_unit::join;
use std::alloc::Global;
use std::test::Fail;

/// The numbers of annotations' lines.
fn add_noted(list: &mut Vec<usize>, notes: &[Noted]) -> Result<(), Fail> {
    list.push(notes.len())?;
    for note in notes {
        list.push(note.line.0 as usize)?;
    }
    Ok(())
}

fn add_places(list: &mut Vec<usize>, lists: &Lists) -> Result<(), Fail> {
    for place in lists.areas.as_slice() {
        list.push(*place)?;
    }
    Ok(())
}

fn add_ports(list: &mut Vec<usize>, ports: &[u8]) -> Result<(), Fail> {
    for port in ports {
        list.push(usize::from(*port))?;
    }
    Ok(())
}

fn add_code(list: &mut Vec<usize>, code: &[Stmt]) -> Result<(), Fail> {
    for stmt in code {
        list.push(usize::from(stmt.addr))?;
        add_noted(list, stmt.asserts.as_slice())?;
    }
    Ok(())
}

fn add_routine(list: &mut Vec<usize>, r: &Routine) -> Result<(), Fail> {
    list.push(r.line.0 as usize)?;
    list.push(usize::from(r.start))?;
    add_noted(list, r.pre.as_slice())?;
    add_noted(list, r.post.as_slice())?;
    add_places(list, &r.reads)?;
    add_places(list, &r.changes)?;
    add_ports(list, r.ins.as_slice())?;
    add_ports(list, r.outs.as_slice())?;
    list.push(usize::from(r.depth))?;
    add_code(list, r.code.as_slice())
}

/// A unit in numbers: the stack region; the address and the length of each area; of each routine its line, whether it is a
/// start routine, how many `pre` and their lines, the same of `post`, the places of what it reads and of what it changes,
/// its ports, its depth, and of each instruction its address, how many assertions and their lines.
fn numbers(alloc: Global, unit: &Unit) -> Result<Vec<usize>, Fail> {
    let mut list = Vec::new(alloc);
    list.push(usize::from(unit.first))?;
    list.push(usize::from(unit.last))?;
    for area in unit.areas.as_slice() {
        list.push(usize::from(area.addr))?;
        list.push(usize::from(area.len))?;
    }
    for r in unit.routines.as_slice() {
        add_routine(&mut list, r)?;
    }
    Ok(list)
}

/// Sources with the numbers of their units.
static UNITS: [(&[u8], &[usize]); 5] = [
    (b";# stack 1, 2\nDB 1\n", &[1, 2]),
    (
        b";# bytes X, 5, 3\n;# stack 2300H, 23FFH\n;# word Y, 2\n",
        &[8960, 9215, 5, 3, 2, 2],
    ),
    // Assertions stand at the instruction below, and the last line of `depth` isn't needed.
    (
        b";# stack 9, 10\n;# routine R\n;# post A = 5\n;# changes A\n;# assert true\nR: MVI A,5\n;# assert A = 5\n;# assert true\nL1:\n RET\n;# end\n",
        &[9, 10, 2, 0, 0, 1, 3, 0, 0, 1, 5, 2, 2, 7, 8],
    ),
    // Routines by rising address, whatever the order of their lines.
    (
        b";# stack 9, 10\nORG 100H\n;# routine R\n;# depth 2\nR: RET\n;# end\nORG 20H\n;# routine Q\n;# pre true\nQ: NOP\n RET\n;# end\n",
        &[9, 10, 8, 0, 1, 9, 0, 0, 32, 0, 33, 0, 3, 0, 0, 0, 2, 256, 0],
    ),
    // Each area once, in the order of first mention; ports as they stand.
    (
        b";# stack 9, 10\n;# byte X, 100H\n;# byte Y, 101H\n;# routine R\n;# start\n;# reads Y, A, X\n;# changes X\n;# reads X, Y\n;# ins 3, 2\n;# outs 7\n;# ins 3\nR: HLT\n;# end\n",
        &[
            9, 10, 256, 1, 257, 1, 4, 1, 0, 0, 1, 0, 0, 3, 2, 3, 7, 0, 0, 0,
        ],
    ),
];

#[test]
fn units_of_sources(rt: HostRuntime) -> Result<(), Fail> {
    let alloc = rt.alloc();
    for (source, wanted) in &UNITS {
        let lines = lines(alloc, source)?;
        let listing = assemble(alloc, source, &lines)?;
        let notes = read_notes(alloc, source, &lines)?;
        let unit = join(alloc, &listing, &notes)?;
        assert_eq!(rt; numbers(alloc, &unit)?.as_slice(), *wanted, "at {source:?}");
    }
    Ok(())
}
