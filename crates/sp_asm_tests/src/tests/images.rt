//! Sources with the bytes of their images.
use super::assembled;
use sp_base::Image;
use std::alloc::Global;
use std::process::Abort;
use std::test::Fail;

/// The bytes of an image, where each run begins with its address.
fn image_shown(alloc: Global, image: &Image) -> Result<String, Fail> {
    let mut text = String::new(alloc);
    let mut from = 0u32;
    for _ in 0..image.len() {
        let Some((address, byte)) = image.next(from) else {
            return Ok(text);
        };
        if text.is_empty() {
            text.push_str(format!(in alloc; "{address:04X}:")?.as_str())?;
        } else if u32::from(address) != from {
            text.push_str(format!(in alloc; " {address:04X}:")?.as_str())?;
        }
        text.push_str(format!(in alloc; "{byte:02X}")?.as_str())?;
        from = u32::from(address) + 1;
    }
    Ok(text)
}

/// Whether each source has its image.
fn expect_images(rt: &impl Abort, alloc: Global, table: &[(&[u8], &str)]) -> Result<(), Fail> {
    for (source, want) in table {
        let listing = match assembled(rt, alloc, source)? {
            Ok(listing) => listing,
            Err(refusal) => panic!(rt; "{refusal:?} at {source:?}"),
        };
        let found = image_shown(alloc, &listing.image)?;
        assert_eq!(rt; found.as_str(), *want, "at {source:?}");
    }
    Ok(())
}

/// Each form of each mnemonic, with the bytes of the manual.
static INSTRUCTIONS: [(&[u8], &str); 34] = [
    (b"MOV B,C\nMOV M,A\nMOV L,M", "0000:41776E"),
    (b"MVI B,1\nMVI M,2\nMVI A,'x'", "0000:060136023E78"),
    (b"LXI B,1234H\nLXI D,1", "0000:013412110100"),
    (b"LXI H,-1\nLXI SP,2400H", "0000:21FFFF310024"),
    (b"INR C\nINR A\nDCR M", "0000:0C3C35"),
    (b"INX B\nINX D\nINX H\nINX SP", "0000:03132333"),
    (b"DCX B\nDCX D\nDCX H\nDCX SP", "0000:0B1B2B3B"),
    (b"DAD B\nDAD D\nDAD H\nDAD SP", "0000:09192939"),
    (b"STAX B\nSTAX D\nLDAX B\nLDAX D", "0000:02120A1A"),
    (b"ADD B\nADC C\nSUB D\nSBB E", "0000:8089929B"),
    (b"ANA H\nXRA L\nORA M\nCMP A", "0000:A4ADB6BF"),
    (b"ADI 1\nACI 2\nSUI 3\nSBI 4", "0000:C601CE02D603DE04"),
    (b"ANI 5\nXRI 6\nORI 7\nCPI 8", "0000:E605EE06F607FE08"),
    (b"SHLD 1234H\nLHLD 1234H", "0000:2234122A3412"),
    (b"STA 1234H\nLDA 1234H", "0000:3234123A3412"),
    (b"RLC\nRRC\nRAL\nRAR", "0000:070F171F"),
    (b"DAA\nCMA\nSTC\nCMC", "0000:272F373F"),
    (b"NOP\nHLT\nEI\nDI", "0000:0076FBF3"),
    (b"XCHG\nXTHL\nSPHL\nPCHL", "0000:EBE3F9E9"),
    (b"PUSH B\nPUSH D\nPUSH H\nPUSH PSW", "0000:C5D5E5F5"),
    (b"POP B\nPOP D\nPOP H\nPOP PSW", "0000:C1D1E1F1"),
    (b"JMP 102H\nJNZ 304H\nJZ 506H", "0000:C30201C20403CA0605"),
    (b"JNC 102H\nJC 304H\nJPO 506H", "0000:D20201DA0403E20605"),
    (b"JPE 102H\nJP 304H\nJM 506H", "0000:EA0201F20403FA0605"),
    (b"CALL 102H\nCNZ 304H\nCZ 506H", "0000:CD0201C40403CC0605"),
    (b"CNC 102H\nCC 304H\nCPO 506H", "0000:D40201DC0403E40605"),
    (b"CPE 102H\nCP 304H\nCM 506H", "0000:EC0201F40403FC0605"),
    (b"RET\nRNZ\nRZ\nRNC\nRC", "0000:C9C0C8D0D8"),
    (b"RPO\nRPE\nRP\nRM", "0000:E0E8F0F8"),
    (b"RST 0\nRST 1\nRST 2\nRST 3", "0000:C7CFD7DF"),
    (b"RST 4\nRST 5\nRST 6\nRST 7", "0000:E7EFF7FF"),
    (b"IN 12H\nOUT 34H", "0000:DB12D334"),
    (b"MVI A,0FF00H\nADI -1\nCPI 0FFH", "0000:3E00C6FFFEFF"),
    (b"IN 0FF7FH\nOUT -256", "0000:DB7FD300"),
];

/// Directives, and what names and `$` stand for.
static DIRECTIVES: [(&[u8], &str); 46] = [
    (b"", ""),
    (b"; nothing\n\n;# stack 1, 2\r\n", ""),
    (b"DB -1", "0000:FF"),
    (b"DB 0,255,0FF00H,0FFFFH", "0000:00FF00FF"),
    (
        b"DB 'AAAAAAAAAAAAAAAAA'",
        "0000:4141414141414141414141414141414141",
    ),
    (
        b"DB 'AB','it''s',1,'A'+1, 'C' ,(2),','",
        "0000:414269742773014243022C",
    ),
    (b"DB 'A',1,'BC',2", "0000:4101424302"),
    (b"DW 1234H,'A',-2", "0000:34124100FEFF"),
    (b"DB 1\nDS 3\nDB 2", "0000:01 0004:02"),
    (b"DS 5\nDB 1", "0005:01"),
    (b"DS 0\nDB 1", "0000:01"),
    (b"DS 3\nORG 1\nDB 1,2,3", "0001:010203"),
    (b"ORG 5\nDB 1\nORG 0\nDB 2", "0000:02 0005:01"),
    (b"ORG 2\nDB 3\nORG 0\nDB 1,2", "0000:010203"),
    (b"ORG 0FFFFH\nDB 1", "FFFF:01"),
    (b"ORG 0FFFFH\nRET", "FFFF:C9"),
    (b"ORG 0FFFEH\nDW 1", "FFFE:0100"),
    (b"ORG 0FFFFH\nDS 1", ""),
    (b"DS 0FFFFH\nDB 1", "FFFF:01"),
    (b"ORG 0FFFFH\nX: DS 1\nDS 0\nEND", ""),
    (
        b"ORG 0FFFFH\nNOP\nX EQU $\nY SET $+1\nORG 5\nDB X,Y",
        "0005:0001 FFFF:00",
    ),
    (b"ORG 0FFFFH\nNOP\nORG $+2\nDB 1", "0002:01 FFFF:00"),
    (b"ORG 0FFFFH\nNOP\nDS $\nEND 1/($+1)", "FFFF:00"),
    (b"ORG 10H\nDB $,$+1\nDW $\nJMP $", "0010:10111200C31400"),
    (b"DB 1,2,3\nORG $+5\nDB 4", "0000:010203 0008:04"),
    (b"DB 1,2\nDS $\nDB 3", "0000:0102 0004:03"),
    (b"NOP\nX EQU $\nDB X,X", "0000:000101"),
    (b"L1: JMP L1", "0000:C30000"),
    (
        b"ORG 100H\nL1:\nL2: DB 1\nDW L1,L2,L3\nL3:",
        "0100:01000100010701",
    ),
    (b"JMP X\nX: NOP", "0000:C3030000"),
    (b"DB X\nX EQU 5", "0000:05"),
    (b"DW X\nX EQU 5", "0000:0500"),
    (b"RST X\nX EQU 5", "0000:EF"),
    (b"X EQU 5\nEND X+1\nEND", ""),
    (b"DB 1\nEND\nDB 2", "0000:01"),
    (b"DB 1\nEND\nthis is 'no statement", "0000:01"),
    (
        b"X SET 1\nDB X\nX SET 2\nDB X\nX SET X+3\nDB X",
        "0000:010205",
    ),
    (b"X SET 1\nY EQU X\nX SET 2\nDB X,Y", "0000:0201"),
    (b"X SET 2\nDS X\nX SET 8\nORG X\nX SET 9\nDB X", "0008:09"),
    (b"x1 equ 7\nMvi a,X1 ; load", "0000:3E07"),
    (b"S:\nBC EQU 2\nDB S,BC,LEN\nLEN EQU 3", "0000:000203"),
    (b"X EQU 6\r\nDB X*X,X/4,X MOD 4\r\n", "0000:240102"),
    (b"DW 1 SHL 15,NOT 0 SHR 8", "0000:0080FFFF"),
    (b"X EQU 7\nY EQU X-2\nZ1: DB Y,Z1+Y", "0000:0505"),
    (b"DW X-Y\nX: DS 4\nY: NOP", "0000:FCFF 0006:00"),
    (b"DB 1 ; DB 2\n DB 3", "0000:0103"),
];

/// A routine that clears a buffer, and one that a start routine calls, with their annotations.
static ROUTINES: [(&[u8], &str); 2] = [
    (
        b";# stack 2300H, 23FFH
;# bytes BUF, 2000H, 16
;# routine CLEAR
;# post for all I in 0..15: BUF[I] = 0
;# changes BUF, A, B, HL, FLAGS
CLEAR: LXI H,2000H
       MVI B,16
       XRA A
;# assert A = 0 and 1 <= B and B <= 16
;# assert HL = addr(BUF) + 16 - B
;# assert for all I in 0..15 - B: BUF[I] = 0
LOOP:  MOV M,A
       INX H
       DCR B
       JNZ LOOP
       RET
;# end
",
        "0000:2100200610AF772305C20600C9",
    ),
    (
        b";# stack 2300H, 23FFH
;# routine START
;# start
;# changes A
;# depth 2
START: LXI SP,2400H
       CALL FIVE
;# assert A = 5
HERE:  JMP HERE
;# end
;# routine FIVE
;# post A = 5
;# changes A
FIVE:  MVI A,5
       RET
;# end
",
        "0000:310024CD0900C306003E05C9",
    ),
];

#[test]
fn sources_have_their_images(rt: HostRuntime) -> Result<(), Fail> {
    expect_images(&rt, rt.alloc(), &INSTRUCTIONS)?;
    expect_images(&rt, rt.alloc(), &DIRECTIVES)?;
    expect_images(&rt, rt.alloc(), &ROUTINES)
}
