// What the clauses leave to the definitions of `csv`, and values at the ends of their ranges.

use std::alloc::Global;
use std::process::Abort;
use std::test::Fail;
use table_text::{
    Row, is_word, lawful_name, put_end, put_number, put_two, read_count, read_share, read_signed,
    records, row_bytes, row_of_words,
};

// The records of a text are these.
fn has_rows(rt: &impl Abort, alloc: Global, text: &[u8], wanted: &[&[&[u8]]]) -> Result<(), Fail> {
    let rows = records(alloc, text)?;
    assert_eq!(rt; rows.len(), wanted.len());
    for (i, fields) in wanted.iter().enumerate() {
        let row = rows.at(i);
        assert_eq!(rt; row.len(), fields.len(), "at record {i}");
        for (j, field) in fields.iter().enumerate() {
            assert_eq!(rt; row.field(j), *field, "at record {i}, field {j}");
        }
    }
    Ok(())
}

// One mark is left off here and one by `csv`; a third stays. A spreadsheet writes such texts.
#[test]
fn marks_and_quotes(rt: HostRuntime) -> Result<(), Fail> {
    let alloc = rt.alloc();
    has_rows(
        &rt,
        alloc,
        b"\xEF\xBB\xBF\xEF\xBB\xBFagent,first,second\r\n\"Lee, Ada\",North,\r\n\"O\"\"Dea, Jo\",North,none\r\n,,\r\n",
        &[
            &[b"agent", b"first", b"second"],
            &[b"Lee, Ada", b"North"],
            &[b"O\"Dea, Jo", b"North", b"none"],
            &[],
        ],
    )?;
    has_rows(
        &rt,
        alloc,
        b"\xEF\xBB\xBF\xEF\xBB\xBF\xEF\xBB\xBFa\n",
        &[&[b"\xEF\xBB\xBFa"]],
    )
}

// Empty fields inside stay; a blank line is no record, and a quoted empty field is one without
// fields.
#[test]
fn unusual_records(rt: HostRuntime) -> Result<(), Fail> {
    has_rows(
        &rt,
        rt.alloc(),
        b"a,,b,,\n\n\r\n\"\"\n , \nx\ry\n\"p\nq\"r,s\"t\nlast,\"open,\n",
        &[
            &[b"a", b"", b"b"],
            &[],
            &[b" ", b" "],
            &[b"x"],
            &[b"y"],
            &[b"p\nqr", b"s\"t"],
            &[b"last", b"open,\n"],
        ],
    )
}

// Fields with a comma, a quote or an end of line, and a record of one empty field.
#[test]
fn written_records(rt: HostRuntime) -> Result<(), Fail> {
    let alloc = rt.alloc();
    let mut row = Row::new(alloc);
    for field in ["a", "b,c", "d\"e", "f\rg", "h\ni", ""] {
        row.push(field.as_bytes())?;
    }
    row.push_number(u128::MAX)?;
    let mut text = Vec::from_slice(alloc, b"x\n")?;
    row_bytes(&row, &mut text)?;
    assert_eq!(rt;
        text.as_slice(),
        b"x\na,\"b,c\",\"d\"\"e\",\"f\rg\",\"h\ni\",,340282366920938463463374607431768211455\n".as_slice()
    );
    let mut text = Vec::new(alloc);
    row_bytes(&row_of_words(alloc, b"", b"")?, &mut text)?;
    put_two(alloc, b"moment", 1, 10, &mut text)?;
    put_end(alloc, 0, &mut text)?;
    assert_eq!(rt; text.as_slice(), b",\nmoment,1,10\nend,0\n".as_slice());
    Ok(())
}

// The lines at the head of table_text.
#[test]
fn read_and_written(rt: HostRuntime) -> Result<(), Fail> {
    let alloc = rt.alloc();
    let rows = records(alloc, b"agent,2\nagent,03\n")?;
    let mut text = Vec::new(alloc);
    for index in 0..rows.len() {
        let row = rows.at(index);
        if is_word(row.field_at(0), b"agent") {
            if let Some(count) = read_count(row.field_at(1)) {
                put_number(alloc, b"demand", count, &mut text)?;
            }
        }
    }
    assert_eq!(rt; text.as_slice(), b"demand,2\ndemand,3\n".as_slice());
    Ok(())
}

#[test]
fn numbers_at_their_ends(rt: HostRuntime) {
    let greatest = "340282366920938463463374607431768211455";
    assert_eq!(rt; read_count(greatest.as_bytes()), Some(u128::MAX));
    for text in [
        "340282366920938463463374607431768211456",
        "0000000000000000000000000000000000000007",
        "",
        "+1",
        "1 ",
    ] {
        assert_eq!(rt; read_count(text.as_bytes()), None, "at {text}");
    }
    for (text, wanted) in [
        ("-0", Some(0)),
        ("-12", Some(-12)),
        ("000000000000000000000000000000000000001", None),
        ("--1", None),
    ] {
        assert_eq!(rt; read_signed(text.as_bytes()), wanted, "at {text}");
    }
    for (text, wanted) in [
        ("", Some((0, 1))),
        ("2/4", Some((2, 4))),
        ("1/0", None),
        ("0.50", Some((50, 100))),
        ("123456789.5", None),
        ("1.2.3", None),
    ] {
        assert_eq!(rt; read_share(text.as_bytes()), wanted, "at {text}");
    }
}

#[test]
fn names(rt: HostRuntime) {
    let letters = [b'a'; 65];
    assert!(rt; lawful_name(&letters[..64]));
    assert!(rt; !lawful_name(&letters));
    for (text, wanted) in [
        ("*", false),
        ("**", true),
        (" ", true),
        ("\u{1f}", false),
        ("~", true),
        ("\u{7f}", false),
        ("\u{9f}", false),
        ("\u{a0}", true),
    ] {
        assert_eq!(rt; lawful_name(text.as_bytes()), wanted, "at {text:?}");
    }
}
