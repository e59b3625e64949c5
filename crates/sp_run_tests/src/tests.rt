//! Option words at their edges, and the texts of runs.
use sp_base::{Image, Memory, Pair, Reg};
use sp_run::{Flag, Options, Setting, Settings, is_in_form, read_options, run};
use std::alloc::Global;
use std::test::Fail;

/// The words of a line, which single blanks divide.
fn words_of(alloc: Global, line: &str) -> Result<Vec<String>, Memory> {
    let mut words = Vec::new(alloc);
    for word in line.split_whitespace() {
        words.push(String::from_str(alloc, word)?)?;
    }
    Ok(words)
}

/// The options of a line of words, or None where they are in no form.
fn options_of(alloc: Global, line: &str) -> Result<Option<Options>, Memory> {
    let words = words_of(alloc, line)?;
    if is_in_form(&words) {
        Ok(Some(read_options(alloc, &words)?))
    } else {
        Ok(None)
    }
}

/// Words that set one thing, and the setting.
static SETTINGS: [(&str, Setting); 35] = [
    ("--set A=0", Setting::Register(Reg::A, 0)),
    ("--set a=255", Setting::Register(Reg::A, 255)),
    ("--set B=0FFH", Setting::Register(Reg::B, 255)),
    ("--set c=0ffh", Setting::Register(Reg::C, 255)),
    ("--set D=11111111B", Setting::Register(Reg::D, 255)),
    ("--set E=377Q", Setting::Register(Reg::E, 255)),
    ("--set H=377o", Setting::Register(Reg::H, 255)),
    (
        "--set L=00000000000000000000009",
        Setting::Register(Reg::L, 9),
    ),
    ("--set BC=0", Setting::Pair(Pair::B, 0)),
    ("--set bC=65535", Setting::Pair(Pair::B, 65_535)),
    ("--set DE=0FFFFH", Setting::Pair(Pair::D, 65_535)),
    ("--set HL=256", Setting::Pair(Pair::H, 256)),
    ("--set SP=65535", Setting::Pair(Pair::Sp, 65_535)),
    ("--set sp=65534D", Setting::Pair(Pair::Sp, 65_534)),
    ("--set S=0", Setting::Flag(Flag::S, false)),
    ("--set s=1", Setting::Flag(Flag::S, true)),
    ("--set Z=1", Setting::Flag(Flag::Z, true)),
    ("--set z=0H", Setting::Flag(Flag::Z, false)),
    ("--set AC=1", Setting::Flag(Flag::Ac, true)),
    ("--set ac=0", Setting::Flag(Flag::Ac, false)),
    ("--set aC=1B", Setting::Flag(Flag::Ac, true)),
    ("--set P=1", Setting::Flag(Flag::P, true)),
    ("--set p=0", Setting::Flag(Flag::P, false)),
    ("--set CY=1", Setting::Flag(Flag::Cy, true)),
    ("--set cY=0", Setting::Flag(Flag::Cy, false)),
    ("--set IN=0", Setting::Input(0)),
    ("--set in=255", Setting::Input(255)),
    ("--set In=7", Setting::Input(7)),
    ("--set 0=0", Setting::Cell(0, 0)),
    ("--set 0=255", Setting::Cell(0, 255)),
    ("--set 65535=1", Setting::Cell(65_535, 1)),
    ("--set 0FFFFH=0C9H", Setting::Cell(65_535, 0xC9)),
    ("--set 2300h=18", Setting::Cell(0x2300, 18)),
    ("--set 1B=1B", Setting::Cell(1, 1)),
    ("--set 0BH=0BH", Setting::Cell(11, 11)),
];

#[test]
fn each_thing_can_be_set(rt: HostRuntime) -> Result<(), Fail> {
    for (line, setting) in &SETTINGS {
        let options = options_of(rt.alloc(), line)?.ok_or(*line)?;
        assert!(rt;
            options.settings.as_slice() == [*setting].as_slice(),
            "{line}"
        );
    }
    Ok(())
}

/// Words with the program counter and the steps that they give, and how many settings.
static LINES: [(&str, Option<u16>, u32, usize); 17] = [
    ("", None, 10_000, 0),
    ("--pc 0", Some(0), 10_000, 0),
    ("--pc=0", Some(0), 10_000, 0),
    ("--pc 65535", Some(65_535), 10_000, 0),
    ("--pc=0FFFFH", Some(65_535), 10_000, 0),
    ("--pc 0ffffh", Some(65_535), 10_000, 0),
    ("--steps 0", None, 0, 0),
    ("--steps=0", None, 0, 0),
    ("--steps 1000000", None, 1_000_000, 0),
    ("--steps=1000000", None, 1_000_000, 0),
    ("--steps 00000000000000000000000012", None, 12, 0),
    ("--steps=0012", None, 12, 0),
    ("--steps 10 --pc 1", Some(1), 10, 0),
    (
        "--pc=1 --set A=1 --steps=2 --set A=2 --set IN=3",
        Some(1),
        2,
        3,
    ),
    ("--set A=1 --set A=1 --set A=1 --set A=1", None, 10_000, 4),
    ("--set IN=1 --pc 2", Some(2), 10_000, 1),
    (
        "--set 5=5 --set 5=5 --steps 3 --set 5=5 --pc=4",
        Some(4),
        3,
        3,
    ),
];

#[test]
fn options_are_read(rt: HostRuntime) -> Result<(), Fail> {
    for (line, pc, steps, settings) in &LINES {
        let options = options_of(rt.alloc(), line)?.ok_or(*line)?;
        let given = (options.pc, options.steps, options.settings.as_slice().len());
        assert!(rt; given == (*pc, *steps, *settings), "{line}");
    }
    Ok(())
}

/// Words in no form.
static NO_FORMS: [&str; 74] = [
    "--pc",
    "--steps",
    "--set",
    "--pc 1 --pc 2",
    "--pc=1 --pc=1",
    "--pc 1 --pc=1",
    "--pc=1 --pc 1",
    "--steps 1 --steps 1",
    "--steps=1 --steps 1",
    "--set=A=1",
    "--set=",
    "--pc=",
    "--steps=",
    "--set A",
    "--set A=",
    "--set =1",
    "--set =",
    "--set A==1",
    "--set A=1=1",
    "--set A=256",
    "--set A=-1",
    "--set A=B",
    "--set A=FFH",
    "--set A=0FFFH",
    "--set A=100H",
    "--set B=1x",
    "--set M=1",
    "--set F=1",
    "--set AB=1",
    "--set CB=1",
    "--set BCD=1",
    "--set PSW=1",
    "--set PC=1",
    "--set INP=1",
    "--set I=1",
    "--set BC=65536",
    "--set SP=10000H",
    "--set S=2",
    "--set Z=256",
    "--set AC=2",
    "--set CY=3",
    "--set P=0FFH",
    "--set IN=256",
    "--set IN=",
    "--set 65536=0",
    "--set 10000H=0",
    "--set 0=256",
    "--set 0A=1",
    "--set 2=0A",
    "--set FFH=1",
    "--set 0FFH",
    "--set $=1",
    "--set A=$",
    "--pc A",
    "--pc 65536",
    "--pc=10000H",
    "--pc -1",
    "--pc 0x10",
    "--pc --steps 1",
    "--steps 1000001",
    "--steps=1000001",
    "--steps 99999999999999999999999999",
    "--steps 0AH",
    "--steps 10H",
    "--steps 10D",
    "--steps +1",
    "--steps -1",
    "--steps 1.0",
    "5",
    "A=1",
    "--",
    "--PC 1",
    "-pc 1",
    "--help",
];

#[test]
fn other_words_are_in_no_form(rt: HostRuntime) -> Result<(), Fail> {
    for line in &NO_FORMS {
        let words = words_of(rt.alloc(), line)?;
        assert!(rt; !is_in_form(&words), "{line}");
    }
    Ok(())
}

#[test]
fn a_value_may_not_be_missing_or_empty(rt: HostRuntime) -> Result<(), Fail> {
    for name in ["--pc", "--steps", "--set", ""] {
        let mut words = words_of(rt.alloc(), name)?;
        words.push(String::new(rt.alloc()))?;
        assert!(rt; !is_in_form(&words), "{name}");
    }
    Ok(())
}

/// An image of these bytes from address 0 on.
fn image_of(alloc: Global, bytes: &[u8]) -> Result<Image, Memory> {
    let mut image = Image::new(alloc);
    let mut address = 0u16;
    for byte in bytes {
        image.set(address, *byte)?;
        address = address.wrapping_add(1);
    }
    Ok(image)
}

/// A program from address 0 on, option words, and the text of the run.
static RUNS: [(&[u8], &str, &str); 22] = [
    // HLT is counted, and a stuck step isn't
    (
        &[0x76],
        "",
        "A=00 B=00 C=00 D=00 E=00 H=00 L=00 S=0 Z=0 AC=0 P=0 CY=0 SP=0000 PC=0000 steps=1 halted\n",
    ),
    (
        &[0x76],
        "--steps 1",
        "A=00 B=00 C=00 D=00 E=00 H=00 L=00 S=0 Z=0 AC=0 P=0 CY=0 SP=0000 PC=0000 steps=1 halted\n",
    ),
    (
        &[0x76],
        "--steps 0",
        "A=00 B=00 C=00 D=00 E=00 H=00 L=00 S=0 Z=0 AC=0 P=0 CY=0 SP=0000 PC=0000 steps=0 running\n",
    ),
    (
        &[0x08],
        "",
        "A=00 B=00 C=00 D=00 E=00 H=00 L=00 S=0 Z=0 AC=0 P=0 CY=0 SP=0000 PC=0000 steps=0 stuck 08\n",
    ),
    (
        &[0x08],
        "--steps 0",
        "A=00 B=00 C=00 D=00 E=00 H=00 L=00 S=0 Z=0 AC=0 P=0 CY=0 SP=0000 PC=0000 steps=0 running\n",
    ),
    (
        &[0x00, 0xFD],
        "--steps 1",
        "A=00 B=00 C=00 D=00 E=00 H=00 L=00 S=0 Z=0 AC=0 P=0 CY=0 SP=0000 PC=0001 steps=1 running\n",
    ),
    (
        &[0x00, 0xFD],
        "--steps 2",
        "A=00 B=00 C=00 D=00 E=00 H=00 L=00 S=0 Z=0 AC=0 P=0 CY=0 SP=0000 PC=0001 steps=1 stuck FD\n",
    ),
    // memory that the image has no byte for is 0, which is NOP
    (
        &[],
        "",
        "A=00 B=00 C=00 D=00 E=00 H=00 L=00 S=0 Z=0 AC=0 P=0 CY=0 SP=0000 PC=2710 steps=10000 running\n",
    ),
    (
        &[0xC3, 0x00, 0x00],
        "--steps 100000",
        "A=00 B=00 C=00 D=00 E=00 H=00 L=00 S=0 Z=0 AC=0 P=0 CY=0 SP=0000 PC=0000 steps=100000 running\n",
    ),
    // DAA
    (
        &[0x27],
        "--set A=9BH --steps 1",
        "A=01 B=00 C=00 D=00 E=00 H=00 L=00 S=0 Z=0 AC=1 P=0 CY=1 SP=0000 PC=0001 steps=1 running\n",
    ),
    // settings are made in order, after the image is loaded
    (
        &[0x00],
        "--set 0=76H",
        "A=00 B=00 C=00 D=00 E=00 H=00 L=00 S=0 Z=0 AC=0 P=0 CY=0 SP=0000 PC=0000 steps=1 halted\n",
    ),
    (
        &[0x00],
        "--steps 0 --set B=1 --set BC=0203H --set B=4",
        "A=00 B=04 C=03 D=00 E=00 H=00 L=00 S=0 Z=0 AC=0 P=0 CY=0 SP=0000 PC=0000 steps=0 running\n",
    ),
    (
        &[0x00],
        "--steps 0 --set B=1 --set B=4 --set BC=0203H",
        "A=00 B=02 C=03 D=00 E=00 H=00 L=00 S=0 Z=0 AC=0 P=0 CY=0 SP=0000 PC=0000 steps=0 running\n",
    ),
    (
        &[0x00],
        "--set DE=0A0BH --set HL=0C0DH --set L=1 --set A=0EFH --steps 0",
        "A=EF B=00 C=00 D=0A E=0B H=0C L=01 S=0 Z=0 AC=0 P=0 CY=0 SP=0000 PC=0000 steps=0 running\n",
    ),
    (
        &[0x00],
        "--set S=1 --set Z=1 --set AC=1 --set P=1 --set CY=1 --set SP=65535 --pc 65535 --steps 0",
        "A=00 B=00 C=00 D=00 E=00 H=00 L=00 S=1 Z=1 AC=1 P=1 CY=1 SP=FFFF PC=FFFF steps=0 running\n",
    ),
    (
        &[0x00],
        "--set Z=1 --set P=1 --set Z=0 --set SP=1234H --steps 0",
        "A=00 B=00 C=00 D=00 E=00 H=00 L=00 S=0 Z=0 AC=0 P=1 CY=0 SP=1234 PC=0000 steps=0 running\n",
    ),
    // an instruction whose operand lies past the end of memory, at address 0
    (
        &[0x07],
        "--pc=65535 --set 0FFFFH=3EH --steps 1",
        "A=07 B=00 C=00 D=00 E=00 H=00 L=00 S=0 Z=0 AC=0 P=0 CY=0 SP=0000 PC=0001 steps=1 running\n",
    ),
    (
        &[0x00],
        "--pc 5 --set 5=76H",
        "A=00 B=00 C=00 D=00 E=00 H=00 L=00 S=0 Z=0 AC=0 P=0 CY=0 SP=0000 PC=0005 steps=1 halted\n",
    ),
    // IN takes the inputs in order, and 255 past their end; OUT has its line
    (
        &[
            0xDB, 1, 0xD3, 2, 0xDB, 3, 0xD3, 0xFE, 0xDB, 5, 0xD3, 6, 0x76,
        ],
        "--set IN=18 --set A=1 --set IN=0ABH",
        "out 02 12\nout FE AB\nout 06 FF\nA=FF B=00 C=00 D=00 E=00 H=00 L=00 S=0 Z=0 AC=0 P=0 CY=0 SP=0000 PC=000C steps=7 halted\n",
    ),
    (
        &[0xD3, 0xA0, 0x10],
        "--set A=5 --steps 9",
        "out A0 05\nA=05 B=00 C=00 D=00 E=00 H=00 L=00 S=0 Z=0 AC=0 P=0 CY=0 SP=0000 PC=0002 steps=1 stuck 10\n",
    ),
    (
        &[0xD3, 0xA0, 0xD3, 0xA1],
        "--set A=5 --steps 1",
        "out A0 05\nA=05 B=00 C=00 D=00 E=00 H=00 L=00 S=0 Z=0 AC=0 P=0 CY=0 SP=0000 PC=0002 steps=1 running\n",
    ),
    // sixteen cells are cleared
    (
        &[
            0x21, 0x00, 0x20, 0x06, 0x10, 0xAF, 0x77, 0x23, 0x05, 0xC2, 0x06, 0x00, 0xC9,
        ],
        "--steps 67",
        "A=00 B=00 C=00 D=00 E=00 H=20 L=10 S=0 Z=1 AC=1 P=1 CY=0 SP=0000 PC=000C steps=67 running\n",
    ),
];

#[test]
fn runs_have_their_texts(rt: HostRuntime) -> Result<(), Fail> {
    let alloc = rt.alloc();
    for (bytes, line, expected) in &RUNS {
        let image = image_of(alloc, bytes)?;
        let options = options_of(alloc, line)?.ok_or(*line)?;
        let text = run(alloc, &image, &options)?;
        assert!(rt; text.as_slice() == expected.as_bytes(), "{line}");
    }
    Ok(())
}

#[test]
fn options_are_made_by_hand(rt: HostRuntime) -> Result<(), Fail> {
    let alloc = rt.alloc();
    let image = image_of(alloc, &[0xDB, 0, 0x76])?;
    let mut settings = Vec::new(alloc);
    settings.push(Setting::Input(1))?;
    settings.push(Setting::Flag(Flag::Cy, true))?;
    let options = Options {
        pc: None,
        steps: 5,
        settings: Settings::from_vec(settings),
    };
    let text = run(alloc, &image, &options)?;
    let expected =
        b"A=01 B=00 C=00 D=00 E=00 H=00 L=00 S=0 Z=0 AC=0 P=0 CY=1 SP=0000 PC=0002 steps=2 halted\n";
    assert!(rt; text.as_slice() == expected.as_slice());
    Ok(())
}
