//! What the scanner gives to makers, and where it stops.
use sf_scan::dict::dict;
use sf_scan::inner::inner_list;
use sf_scan::item::item;
use sf_scan::leaf::{Leaf, Param};
use sf_scan::maker::{Collect, Find, Nothing};
use sf_scan::param::params;
use sf_scan::place::Halt;
use sf_value::Dialect;
use std::process::Abort;
use std::test::Fail;

/// A bare item as it is written here: its type and its number, or the bytes that point into the text.
#[derive(Clone, Copy, Debug, PartialEq, Eq)]
enum Value<'a> {
    Integer(i64),
    Decimal(i64),
    Date(i64),
    Token(&'a [u8]),
    Text(&'a [u8]),
    Escaped(&'a [u8]),
    Blob(&'a [u8]),
    Display(&'a [u8]),
    Boolean(bool),
}

fn value_of(leaf: Leaf<'_>) -> Value<'_> {
    match leaf {
        Leaf::Integer(number) => Value::Integer(number),
        Leaf::Decimal(number) => Value::Decimal(number),
        Leaf::Date(number) => Value::Date(number),
        Leaf::Token(bytes) => Value::Token(bytes),
        Leaf::Text(bytes) => Value::Text(bytes),
        Leaf::Escaped(bytes) => Value::Escaped(bytes),
        Leaf::Blob(bytes) => Value::Blob(bytes),
        Leaf::Display(bytes) => Value::Display(bytes),
        Leaf::Boolean(holds) => Value::Boolean(holds),
    }
}

/// Whether the parameter at this place has the key and the value.
fn is_at(params: &[Param<'_>], at: usize, key: &[u8], value: Value<'_>) -> bool {
    match params.get(at) {
        Some(param) => param.key == key && value_of(param.leaf) == value,
        None => false,
    }
}

/// Each type of bare item, a key alone, and a key twice: all parameters, in their order.
#[test]
fn all_parameters(rt: HostRuntime) -> Result<(), Fail> {
    let text =
        b";a=-7; b=2.5;c=@9;d=t/1;e=\"x y\";f=\"x\\\"y\";g=:YQ==:;h=%\"%c3%bc\";i=?0;j;a=1 , z";
    let wanted: [(&[u8], Value); 11] = [
        (b"a", Value::Integer(-7)),
        (b"b", Value::Decimal(2500)),
        (b"c", Value::Date(9)),
        (b"d", Value::Token(b"t/1")),
        (b"e", Value::Text(b"x y")),
        (b"f", Value::Escaped(b"x\\\"y")),
        (b"g", Value::Blob(b"YQ==")),
        (b"h", Value::Display(b"%c3%bc")),
        (b"i", Value::Boolean(false)),
        (b"j", Value::Boolean(true)),
        (b"a", Value::Integer(1)),
    ];
    let mut all = Collect::new(rt.alloc());
    let Ok(stop) = params(Dialect::Rfc9651, text, &mut all) else {
        return Err(Fail::from("no parameters"));
    };
    assert_eq!(&rt; stop.left, b" , z".as_slice());
    assert_eq!(&rt; all.params().len(), wanted.len());
    for (at, (key, value)) in wanted.iter().enumerate() {
        assert!(&rt; is_at(all.params(), at, key, *value), "{at}");
    }
    Ok(())
}

/// The value of the last parameter with the key counts.
#[test]
fn last_parameter_found(rt: HostRuntime) -> Result<(), Fail> {
    let mut q = Find::new(b"q");
    let Ok(stop) = item(Dialect::Rfc9651, b"a;q=1;r;q=2, b", &mut q) else {
        return Err(Fail::from("no Item"));
    };
    assert_eq!(&rt; stop.left, b", b".as_slice());
    assert_eq!(&rt; q.found().map(value_of), Some(Value::Integer(2)));
    Ok(())
}

/// A Date is none in the older dialect: the parameter before it was taken.
#[test]
fn parameters_before_a_mistake(rt: HostRuntime) -> Result<(), Fail> {
    let mut all = Collect::new(rt.alloc());
    let Err(Halt::Refused(stop)) = params(Dialect::Rfc8941, b";a;b=@1", &mut all) else {
        return Err(Fail::from("not refused"));
    };
    assert_eq!(&rt; stop.left, b"@1".as_slice());
    assert!(&rt; !stop.place.allowed(Dialect::Rfc8941).may_end);
    assert_eq!(&rt; all.params().len(), 1);
    Ok(())
}

/// Constructs end where no byte of theirs can come, whatever follows.
#[test]
fn stops(rt: HostRuntime) -> Result<(), Fail> {
    let Ok(stop) = inner_list(Dialect::Rfc9651, b"a  b );x=1)", &mut Nothing) else {
        return Err(Fail::from("no Inner List"));
    };
    assert_eq!(&rt; stop.left, b")".as_slice());
    let Ok(stop) = dict(Dialect::Rfc9651, b" a=1 ,\tb \n", &mut Nothing) else {
        return Err(Fail::from("no Dictionary"));
    };
    assert_eq!(&rt; stop.left, b"\n".as_slice());
    assert!(&rt; stop.place.allowed(Dialect::Rfc9651).may_end);
    Ok(())
}
