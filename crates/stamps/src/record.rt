// Lines about the current record: set a field of it, show it, begin a new one.
ghost use Rattle.std.specs.Prelude.{◌≡◌};
ghost use Rattle.std.specs.Result.{result_ok};
ghost use Rattle.stamps.specs.Commands.{verbs, Obeyed};
ghost use Rattle.stamps.specs.Words.{Stands};

use super::line::{Reason, Refusal, UnknownWord};
use collect::fault::Fault;
use parsed::Parsed;
use setters::choice::set;
use setters::setter::Setter;
use std::fmt;
use std::str::FromStr;

#[derive(Clone, Copy)]
pub(crate) enum Verb {
    Set,
    Show,
    New,
}

// What the first word of a line says to do.
impl FromStr for Verb {
    type Err = UnknownWord;

    ghost from_str_gives = { λ word r. Stands verbs word (result_ok r) };

    fn from_str(word: &str) -> Result<Verb, UnknownWord> {
        match word {
            "set" => Ok(Verb::Set),
            "show" => Ok(Verb::Show),
            "new" => Ok(Verb::New),
            _ => Err(UnknownWord),
        }
    }
}

#[derive(Clone, Copy)]
pub(crate) enum Command {
    Set(Setter, i64),
    Show,
    New,
}

impl fmt::Display for Command {
    fn fmt<W: fmt::Write>(&self, f: &mut fmt::Formatter<W>) -> fmt::Result {
        match *self {
            Command::Set(setter, value) => write!(f, "{setter} {value}"),
            Command::Show => f.write_str("show"),
            Command::New => f.write_str("new"),
        }
    }
}

// What a verb is followed by: the name of a setter and a value, or nothing. The text begins at a place of its line.
pub(crate) fn command_of(verb: Verb, text: &str, place: usize) -> Result<Command, Refusal> {
    let mut words = text.split_whitespace();
    let command = match verb {
        Verb::Set => {
            let name = words.next().unwrap_or_default();
            let setter = name
                .parse::<Setter>()
                .map_err(|unknown| Refusal::at(place, unknown))?;
            let number = words.next().unwrap_or_default();
            let value = number
                .parse::<i64>()
                .map_err(|error| Refusal::at(place, error))?;
            Command::Set(setter, value)
        }
        Verb::Show => Command::Show,
        Verb::New => Command::New,
    };
    if words.next().is_some() {
        return Err(Refusal::at(place, Reason::MoreWords));
    }
    Ok(command)
}

// Does what a line says to the record. A refusal leaves what was granted.
pub(crate) fn obey(held: &mut Parsed, command: Command) -> Result<(), Fault>
    ensures { Obeyed command held.old result held.new }
{
    match command {
        Command::Set(setter, value) => set(held, setter, value),
        Command::Show => Ok(()),
        Command::New => {
            *held = Parsed::new();
            Ok(())
        }
    }
}
