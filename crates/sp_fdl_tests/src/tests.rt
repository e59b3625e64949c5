use bumpalo::Bump;
use sp_fdl::{FdlRefusal, print, read};
use std::alloc::Global;
use std::process::Abort;
use std::test::Fail;

/// The printed form of the term that a text stands for, or what the text is refused with.
fn answer(alloc: Global, text: &[u8]) -> Result<Vec<u8>, Fail> {
    let arena = Bump::new(alloc);
    match read(alloc, text, &arena) {
        Ok(term) => Ok(print(alloc, term)?),
        Err(FdlRefusal::Syntax) => Ok(Vec::from_slice(alloc, b"Syntax")?),
        Err(FdlRefusal::Memory) => Ok(Vec::from_slice(alloc, b"Memory")?),
    }
}

fn check(rt: &impl Abort, alloc: Global, text: &[u8], want: &[u8]) -> Result<(), Fail> {
    let found = answer(alloc, text)?;
    assert_eq!(rt; found.as_slice(), want, "at {text:?}");
    Ok(())
}

/// Texts as they are printed.
static PRINTED: [&[u8]; 60] = [
    b"0",
    b"7",
    b"9223372036854775807",
    b"-9223372036854775808",
    b"a",
    b"b~",
    b"c_1",
    b"ac_12",
    b"cy~",
    b"a_4294967295",
    b"mem",
    b"mem~",
    b"mem_4294967295",
    b"in_1",
    b"stk1h",
    b"stk4294967295l",
    b"k_1",
    b"true",
    b"false",
    b"(a + 1)",
    b"(a - -1)",
    b"(-1 - -1)",
    b"(a - b)",
    b"(a * b)",
    b"(a div b)",
    b"(a mod b)",
    b"((a + b) + c)",
    b"(a = b)",
    b"(a < b)",
    b"(a <= b)",
    b"(not true)",
    b"(true and false)",
    b"(true or false)",
    b"(true -> false)",
    b"(true <-> false)",
    b"band(a,b)",
    b"bor(a,b)",
    b"bxor(a,b)",
    b"par(a)",
    b"bit(0,a)",
    b"bit(7,a)",
    b"psw(s,z,ac,p,cy)",
    b"if(true,1,2)",
    b"if((a = b),c,d)",
    b"element(mem,[a])",
    b"element(mem~,[0])",
    b"element(update(mem,[a],b),[c])",
    b"update(mem,[a],b)",
    b"update(update(mem~,[1],2),[3],4)",
    b"total(mem,[a],[b])",
    b"total(update(mem,[a],b),[0],[65535])",
    b"total(mem~,[a],[b])",
    b"for_all(i1: 0..3, (i1 = a))",
    b"for_some(i1: 0..3, (i1 = a))",
    b"for_all(i1: 0..-1, true)",
    b"for_all(i1: -1..1, true)",
    b"for_all(i9: (a + b)..(c * d), (element(mem,[i9]) = i9))",
    b"for_all(i4294967295: 0..3, (i4294967295 = a))",
    b"for_all(i1: 0..3, for_some(i2: i1..5, (i1 < i2)))",
    b"for_all(i2: 0..3, for_some(i1: i2..5, (i1 < i2)))",
];

/// Texts with other blanks and leading zeros, and the printed forms of their terms.
static SPACED: [(&[u8], &[u8]); 62] = [
    (b"007", b"7"),
    (b"-0", b"0"),
    (b"-007", b"-7"),
    (b"( a~+ 1)", b"(a~ + 1)"),
    (b"(a+1)", b"(a + 1)"),
    (b"( \t a\t+  1\t)", b"(a + 1)"),
    (b"(a+-1)", b"(a + -1)"),
    (b"(a--1)", b"(a - -1)"),
    (b"(a -1)", b"(a - 1)"),
    (b"(a- 1)", b"(a - 1)"),
    (b"(-1-1)", b"(-1 - 1)"),
    (b"(1-1)", b"(1 - 1)"),
    (b"(a*-1)", b"(a * -1)"),
    (b"(a div-2)", b"(a div -2)"),
    (b"((a + b)div(c + d))", b"((a + b) div (c + d))"),
    (b"((a + b)mod\t7)", b"((a + b) mod 7)"),
    (b"(a<-1)", b"(a < -1)"),
    (b"(a<=-1)", b"(a <= -1)"),
    (b"(a=-1)", b"(a = -1)"),
    (b"(true->false)", b"(true -> false)"),
    (b"(true<->false)", b"(true <-> false)"),
    (b"(not(a = b))", b"(not (a = b))"),
    (b"(not\ttrue)", b"(not true)"),
    (b"(not(not true))", b"(not (not true))"),
    (b"( not true )", b"(not true)"),
    (b"(true and(a = b))", b"(true and (a = b))"),
    (b"((a = b)and(c = d))", b"((a = b) and (c = d))"),
    (b"((a = b)or(c = d))", b"((a = b) or (c = d))"),
    (b"band ( a , b )", b"band(a,b)"),
    (b"par\t(\ta\t)", b"par(a)"),
    (b"if ( true , 1 , 2 )", b"if(true,1,2)"),
    (b"element ( mem , [ a ] )", b"element(mem,[a])"),
    (b"element(mem ,[a] )", b"element(mem,[a])"),
    (b"update( mem_2 , [ a ] , b )", b"update(mem_2,[a],b)"),
    (b"total ( mem , [ a ] , [ b ] )", b"total(mem,[a],[b])"),
    (b"psw( 1 ,2, 3,4 ,5 )", b"psw(1,2,3,4,5)"),
    (b"bit( 3 , a )", b"bit(3,a)"),
    (
        b"for_all ( i1 : 0 .. 3 , ( i1 = a ) )",
        b"for_all(i1: 0..3, (i1 = a))",
    ),
    (b"for_all(i1:0..3,(i1=a))", b"for_all(i1: 0..3, (i1 = a))"),
    (
        b"for_some(i1:-1..-1,(i1=a))",
        b"for_some(i1: -1..-1, (i1 = a))",
    ),
    (b"for_all(i1: 0..3,true)", b"for_all(i1: 0..3, true)"),
    (
        b"(\t (  (  k_1  mod 256 )mod\t256 ) <  (\t 8192\tmod 256\t ))",
        b"(((k_1 mod 256) mod 256) < (8192 mod 256))",
    ),
    (
        b"(  band(\t k_1\t ,  k_2\t ) +\t (s_1* p~\t ) )",
        b"(band(k_1,k_2) + (s_1 * p~))",
    ),
    (
        b"update(mem_1,[par(l )]\t ,total  ( mem_1,[3\t ] , [band  (k_1,k_2)]\t ))",
        b"update(mem_1,[par(l)],total(mem_1,[3],[band(k_1,k_2)]))",
    ),
    (
        b"for_all\t (  i2  : in_1\t ..h,( 8192<=  i2  ))",
        b"for_all(i2: in_1..h, (8192 <= i2))",
    ),
    (b"(256= k_2\t )", b"(256 = k_2)"),
    (
        b"( (16-116  )*(k_2 +\t 65536  ))",
        b"((16 - 116) * (k_2 + 65536))",
    ),
    (
        b"for_some( i1\t :  in_1 ..\t 256\t ,(\t not\tfalse))",
        b"for_some(i1: in_1..256, (not false))",
    ),
    (b"(  not\t (\t k_1<=  k_2))", b"(not (k_1 <= k_2))"),
    (b"(\t 256*  (l  +  c_2 ))", b"(256 * (l + c_2))"),
    (
        b"(\t par(bit (\t 3 ,a\t )\t )  =\t (l-\t ( k_1  mod  256\t ))\t )",
        b"(par(bit(3,a)) = (l - (k_1 mod 256)))",
    ),
    (
        b"((z~ mod\t128  )<=(  psw ( s , z, ac  ,\t p ,cy\t )+4611686018427387904  ))",
        b"((z~ mod 128) <= (psw(s,z,ac,p,cy) + 4611686018427387904))",
    ),
    (b"(  ( b~-\t z~)div\t10)", b"((b~ - z~) div 10)"),
    (
        b"if(( (a\t <\t b)  <->true\t ), (\t par\t (  k_1\t ) *8193\t )  ,(2 *  a ) )",
        b"if(((a < b) <-> true),(par(k_1) * 8193),(2 * a))",
    ),
    (b"(\t false and (k_1  <=k_2))", b"(false and (k_1 <= k_2))"),
    (
        b"update (\t mem~,[  65536],  4611686018427387904)",
        b"update(mem~,[65536],4611686018427387904)",
    ),
    (b"update( mem~ ,[k_1\t ]\t ,  l)", b"update(mem~,[k_1],l)"),
    (b"(  par ( 16\t )  <  (k_1+h)  )", b"(par(16) < (k_1 + h))"),
    (
        b"for_all(i1  : a ..\t 8192\t ,  ( i1\t =i1\t ))",
        b"for_all(i1: a..8192, (i1 = i1))",
    ),
    (
        b"(( 4611686018427387904+4611686018427387904)\t <(16\t -  -256)\t )",
        b"((4611686018427387904 + 4611686018427387904) < (16 - -256))",
    ),
    (b"( h  div\tl  )", b"(h div l)"),
    (
        b"update(mem,  [ ( h  +  5)]\t ,(  par  (k_1) +\t 3))",
        b"update(mem,[(h + 5)],(par(k_1) + 3))",
    ),
];

/// Texts that stand for no term.
static REFUSED: [&[u8]; 64] = [
    b"9223372036854775808",
    b"-9223372036854775809",
    b"- 5",
    b"",
    b"5 ",
    b" 5",
    b"a_0",
    b"a_01",
    b"a_4294967296",
    b"a~~",
    b"a~_1",
    b"A",
    b"hl",
    b"in",
    b"stk1",
    b"k1",
    b"i1",
    b"i0",
    b"(a - - 1)",
    b"(adiv b)",
    b"(true < -> false)",
    b"(nottrue)",
    b"(a +\n1)",
    b"(a +\xa01)",
    b"(a + b",
    b"a + b",
    b"(a + b))",
    b"(a)",
    b"(- a)",
    b"(a =< b)",
    b"not true",
    b"band(a)",
    b"bit(8,a)",
    b"bit(03,a)",
    b"psw(s,z,ac,p)",
    b"total(mem,[a],b)",
    b"(1 + true)",
    b"(true = true)",
    b"(mem = mem)",
    b"if(true,true,false)",
    b"element(a,[b])",
    b"update(mem,[a],mem)",
    b"for_all(i4294967296: 0..3, true)",
    b"for_all(i01: 0..3, true)",
    b"for_all(i1: i1..3, true)",
    b"for_all(i1: 0..i1, true)",
    b"for_all(i1: 0..3, (i2 = 1))",
    b"(for_all(i1: 0..3, (i1 = 0)) and (i1 = 0))",
    b"for_all(i1: 0...3, true)",
    b"for_all(i1: 0. .3, true)",
    b"999999999999999999999999999999",
    b"0x10",
    b"5\t",
    b"a_1~",
    b"Ac",
    b"pc",
    b"mem_",
    b"in_01",
    b"stk4294967296h",
    b"stk_1h",
    b"k_4294967296",
    b"i",
    b"not",
    b"(a - >b)",
];

#[test]
fn printed_texts_are_read_and_printed_again(rt: HostRuntime) -> Result<(), Fail> {
    for text in &PRINTED {
        check(&rt, rt.alloc(), text, text)?;
    }
    Ok(())
}

#[test]
fn blanks_stand_between_tokens(rt: HostRuntime) -> Result<(), Fail> {
    for (text, want) in &SPACED {
        check(&rt, rt.alloc(), text, want)?;
    }
    Ok(())
}

#[test]
fn other_texts_are_refused(rt: HostRuntime) -> Result<(), Fail> {
    for text in &REFUSED {
        check(&rt, rt.alloc(), text, b"Syntax")?;
    }
    Ok(())
}

/// A text with one text in front and one at its end, this many times.
fn nested(
    alloc: Global,
    times: u32,
    front: &[u8],
    middle: &[u8],
    back: &[u8],
) -> Result<Vec<u8>, Fail> {
    let mut text = Vec::new(alloc);
    for _ in 0..times {
        text.extend_from_slice(front)?;
    }
    text.extend_from_slice(middle)?;
    for _ in 0..times {
        text.extend_from_slice(back)?;
    }
    Ok(text)
}

/// Forms that are nested: what stands in front of the part, the innermost part, and what stands after it.
static NESTED: [(&[u8], &[u8], &[u8]); 6] = [
    (b"(not ", b"true", b")"),
    (b"(1 + ", b"1", b")"),
    (b"(", b"1", b" + 1)"),
    (b"bit(3,", b"a", b")"),
    (b"update(", b"mem", b",[1],2)"),
    (b"for_all(i1: 0..1, ", b"true", b")"),
];

#[test]
fn terms_have_a_depth_of_2000_at_most(rt: HostRuntime) -> Result<(), Fail> {
    for (front, middle, back) in &NESTED {
        let text = nested(rt.alloc(), 1_999, front, middle, back)?;
        check(&rt, rt.alloc(), text.as_slice(), text.as_slice())?;
        let text = nested(rt.alloc(), 2_000, front, middle, back)?;
        check(&rt, rt.alloc(), text.as_slice(), b"Syntax")?;
    }
    Ok(())
}

#[test]
fn parentheses_by_the_million_are_refused(rt: HostRuntime) -> Result<(), Fail> {
    let text = nested(rt.alloc(), 4_194_304, b"(", b"", b"")?;
    check(&rt, rt.alloc(), text.as_slice(), b"Syntax")
}
