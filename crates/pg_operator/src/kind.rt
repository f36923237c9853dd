//! What the values of a setup file have to be, for a person.

ghost use Rattle.std.specs.Prelude.{◌≡◌, IfErr};

use crate::{address, general, port_rules, table};
use pg_wire::Refusal;
use std::alloc::Global;
use std::fmt;
use thiserror::Error;
use toml::Value;

/// Which table of a setup file.
#[derive(Clone, Copy, Debug)]
pub enum Heading {
    /// The file itself.
    File,
    /// A table `[[pmu]]`.
    Pmu,
    /// A table `[[subscriber]]`.
    Subscriber,
    /// A table `[[subscriber.stream]]`.
    Stream,
}

/// The most bytes of a socket's path: those of a Unix socket's address without the zero byte that ends them.
pub(crate) const PATH_LIMIT: usize = 107;

/// The most characters of a gateway's name.
pub(crate) const NAME_LIMIT: usize = 64;

/// The most addresses of a source.
pub(crate) const CONNECT_LIMIT: usize = 4;

/// The most members of a stream.
pub(crate) const MEMBER_LIMIT: usize = 32;

/// What a value has to be.
#[derive(Clone, Copy, Debug, PartialEq, Eq)]
pub enum Kind {
    /// A whole number from one to another.
    Whole(u32, u32),
    /// True or false.
    Truth,
    /// An address that is called, or a list of them.
    Called,
    /// An address of this machine.
    Bound,
    /// An address of this machine with a port.
    Served,
    /// A level of the log.
    Level,
    /// What is done where the blocks of a stream change.
    Change,
    /// The path of a socket.
    Path,
    /// The path of a folder.
    Folder,
    /// A name for people.
    Name,
    /// A list of networks.
    Networks,
    /// A list of PMUs.
    Grants,
    /// A list of one PMU or more, as many as a stream may have.
    Members,
    /// A text.
    Text,
    /// Tables under a heading of this name.
    Tables(&'static str),
}

impl fmt::Display for Kind {
    fn fmt<W: fmt::Write>(&self, f: &mut fmt::Formatter<W>) -> fmt::Result {
        match self {
            Kind::Whole(least, most) => write!(f, "a whole number from {least} to {most}"),
            Kind::Truth => f.write_str("true or false"),
            Kind::Called => write!(
                f,
                "a text \"A.B.C.D:PORT\" or \"NAME:PORT\", or a list of 1 to {} of these",
                CONNECT_LIMIT
            ),
            Kind::Bound => f.write_str("a text \"A.B.C.D\""),
            Kind::Served => f.write_str("a text \"A.B.C.D:PORT\""),
            Kind::Level => f.write_str("\"error\", \"warn\", \"info\" or \"debug\""),
            Kind::Change => f.write_str("\"safe\", \"hangup\" or \"keep\""),
            Kind::Path => write!(
                f,
                "the path of a socket, a text of 1 to {} bytes without a zero byte",
                PATH_LIMIT
            ),
            Kind::Folder => write!(
                f,
                "the path of a folder, a text of 1 to {} bytes without a zero byte",
                PATH_LIMIT
            ),
            Kind::Name => write!(
                f,
                "a text of 1 to {} printable ASCII characters",
                NAME_LIMIT
            ),
            Kind::Networks => f.write_str("a list of texts \"A.B.C.D\" or \"A.B.C.D/BITS\""),
            Kind::Grants => f.write_str(
                "a list of PMUs, each a number from 1 to 65534 or a text \"SOURCE/PMU\" of two",
            ),
            Kind::Members => write!(
                f,
                "a list of 1 to {} PMUs, each a number from 1 to 65534 or a text \"SOURCE/PMU\" of two",
                MEMBER_LIMIT
            ),
            Kind::Text => f.write_str("a text"),
            Kind::Tables(heading) => write!(f, "one table or more, each under {heading}"),
        }
    }
}

/// A value as a person would call it.
#[derive(Debug, Drop)]
pub enum Found {
    /// A whole number.
    Whole(i64),
    /// A text.
    Text(String),
    /// True or false.
    Truth(bool),
    /// A list with so many items.
    List(usize),
    /// A table.
    Table,
    /// A number with a fraction, a date or a time.
    Other,
}

impl fmt::Display for Found {
    fn fmt<W: fmt::Write>(&self, f: &mut fmt::Formatter<W>) -> fmt::Result {
        match self {
            Found::Whole(number) => write!(f, "{number}"),
            Found::Text(text) => write!(f, "the text {:?}", text.as_str()),
            Found::Truth(truth) => write!(f, "{truth}"),
            Found::List(count) => write!(f, "a list with {count} items"),
            Found::Table => f.write_str("a table"),
            Found::Other => f.write_str("a number with a fraction, a date or a time"),
        }
    }
}

/// How a value is not what it has to be.
#[derive(Debug, Drop, Error)]
pub enum Misfit {
    /// The value itself.
    #[error("is {0}")]
    Value(Found),
    /// The item with this number, from 1.
    #[error("item {0} is {1}")]
    Item(usize, Found),
}

/// What a value is.
fn what_is(alloc: Global, value: &Value) -> Result<Found, Refusal>
    ensures memory { IfErr result (λ refusal. refusal ≡ Refusal.NoMemory) }
{
    Ok(match value {
        Value::Integer(number) => Found::Whole(*number),
        Value::String(text) => Found::Text(String::from_str(alloc, text.as_str())?),
        Value::Boolean(truth) => Found::Truth(*truth),
        Value::Array(items) => Found::List(items.len()),
        Value::Table(_) => Found::Table,
        _ => Found::Other,
    })
}

impl Kind {
    /// How a value is not of this kind, if it is not.
    pub(crate) fn misfit(self, alloc: Global, value: &Value) -> Result<Option<Misfit>, Refusal>
        ensures memory { IfErr result (λ refusal. refusal ≡ Refusal.NoMemory) }
    {
        let fits = match self {
            Kind::Whole(least, most) => table::whole(value, least, most).is_some(),
            Kind::Truth => matches!(value, Value::Boolean(_)),
            Kind::Called => match value {
                Value::Array(_) => return self.misfit_of_list(alloc, value),
                _ => address::called(value).is_some(),
            },
            Kind::Bound => address::bound(value).is_some(),
            Kind::Served => address::served(value).is_some(),
            Kind::Level => general::level(value).is_some(),
            Kind::Change => port_rules::change(value).is_some(),
            Kind::Path | Kind::Folder => general::path(value).is_some(),
            Kind::Name => general::name(value).is_some(),
            Kind::Text => matches!(value, Value::String(_)),
            Kind::Networks | Kind::Grants | Kind::Members | Kind::Tables(_) => {
                return self.misfit_of_list(alloc, value);
            }
        };
        if fits {
            return Ok(None);
        }
        Ok(Some(Misfit::Value(what_is(alloc, value)?)))
    }

    /// How a value is not a list of this kind, if it is not.
    fn misfit_of_list(self, alloc: Global, value: &Value) -> Result<Option<Misfit>, Refusal>
        ensures memory { IfErr result (λ refusal. refusal ≡ Refusal.NoMemory) }
    {
        let Value::Array(items) = value else {
            return Ok(Some(Misfit::Value(what_is(alloc, value)?)));
        };
        let limit = match self {
            Kind::Members => Some(MEMBER_LIMIT),
            Kind::Called => Some(CONNECT_LIMIT),
            _ => None,
        };
        if let Some(limit) = limit {
            if items.is_empty() || items.len() > limit {
                return Ok(Some(Misfit::Value(Found::List(items.len()))));
            }
        }
        for (number, item) in items.iter().enumerate() {
            let fits = match self {
                Kind::Networks => address::network(item).is_some(),
                Kind::Called => address::called(item).is_some(),
                Kind::Tables(_) => item.as_table().is_some(),
                _ => table::key(item).is_some(),
            };
            if !fits {
                return Ok(Some(Misfit::Item(number + 1, what_is(alloc, item)?)));
            }
        }
        Ok(None)
    }
}
