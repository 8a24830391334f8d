// Refusals.
ghost use Rattle.std.specs.Prelude.{◌≡◌, Some, Err};
ghost use Rattle.collect.specs.Faults.{layer_number, field_named, told, nowhere, of_field, no_field};
ghost use Rattle.collect.specs.Fields.{field_number};
ghost use Rattle.collect.specs.Readings.{fault};
ghost use Rattle.collect.specs.Refusals.{cause_text, fault_text};

use super::field::Field;
use scan::kind::ParseErrorKind;
use std::error::Error;
use std::fmt;

// Where a refusal comes from.
#[derive(Clone, Copy, PartialEq, Eq, Debug)]
pub enum Layer {
    // the bytes are no text
    Text,
    // the list of items, and what it leaves unread
    List,
    // what one item reads
    Scan,
    // the field of this number, or 0 for a number of no field; a caller may make and print refusals of any number
    Field(u8),
}

impl Layer {
    pub fn number(self) -> u8
        ensures { result ≡ layer_number self }
    {
        match self {
            Layer::Text => 1,
            Layer::List => 2,
            Layer::Scan => 3,
            Layer::Field(_) => 4,
        }
    }

    // The number of the field that the refusal names, and 0 where it names none.
    pub fn field(self) -> u8
        ensures { result ≡ field_named self }
    {
        match self {
            Layer::Field(field) => field,
            _ => 0,
        }
    }
}

// What was refused, without the item and the place that it happened at.
#[derive(Clone, Copy, PartialEq, Eq, Debug)]
pub struct Cause {
    pub kind: ParseErrorKind,
    pub layer: Layer,
}

#[derive(Clone, Copy, PartialEq, Eq, Debug)]
pub struct Fault {
    pub cause: Cause,
    // the number of the item in its list, from 0 on
    pub item: usize,
    // the byte of the text where the item began
    pub place: usize,
}

impl Cause {
    // The refusal by a field.
    pub fn of_field(kind: ParseErrorKind, field: Field) -> Cause
        ensures { result ≡ of_field kind (field_number field) }
    {
        Cause {
            kind,
            layer: Layer::Field(field.number()),
        }
    }

    // The refusal of an offer to a number of no field: it names 0.
    pub fn no_field() -> Cause
        ensures { result ≡ no_field }
    {
        Cause {
            kind: ParseErrorKind::OutOfRange,
            layer: Layer::Field(0),
        }
    }
}

impl Fault {
    // Kind, layer, item, place and field, for a machine.
    pub fn numbers(self) -> (u8, u8, usize, usize, u8)
        ensures { told {A = Unit {0}} nowhere (Err self) ≡ fault result.0 result.1 result.2 result.3 result.4 }
    {
        let layer = self.cause.layer;
        (
            self.cause.kind.number(),
            layer.number(),
            self.item,
            self.place,
            layer.field(),
        )
    }
}

// The refusal of a call that knows neither item nor place.
impl From<Cause> for Fault {
    ghost from_gives = { λ w f. f ≡ record { cause = w; item = 0; place = 0 } };

    fn from(cause: Cause) -> Fault {
        Fault {
            cause,
            item: 0,
            place: 0,
        }
    }
}

// What was refused, in words.
impl fmt::Display for Cause {
    ghost output = { λ w. Some (cause_text w) };

    fn fmt<W: fmt::Write>(&self, f: &mut fmt::Formatter<W>) -> fmt::Result {
        let kind = self.kind;
        let Layer::Field(number) = self.layer else {
            return write!(f, "{kind}");
        };
        let Ok(field) = Field::try_from(number) else {
            return write!(f, "no field has this number");
        };
        match kind {
            ParseErrorKind::OutOfRange => write!(f, "{field} is out of range"),
            ParseErrorKind::Impossible => write!(f, "{field} holds another value"),
            _ => write!(f, "{field}: {kind}"),
        }
    }
}

// The same with the item and the byte, if it has them, and all five numbers.
impl fmt::Display for Fault {
    ghost output = { λ w. Some (fault_text w) };

    fn fmt<W: fmt::Write>(&self, f: &mut fmt::Formatter<W>) -> fmt::Result {
        let cause = self.cause;
        let (kind, layer, item, place, field) = self.numbers();
        if item > 0 || place > 0 {
            write!(f, "item {item} at byte {place}: ")?;
        }
        write!(f, "{cause} [fault {kind} {layer} {item} {place} {field}]")
    }
}

impl Error for Cause {}

impl Error for Fault {}
