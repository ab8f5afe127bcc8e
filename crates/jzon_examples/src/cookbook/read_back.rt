//! A struct that is written, and read back as an equal one, by proof.

ghost use Rattle.std.specs.Prelude.{◌≡◌, IfOk, true};
ghost use Rattle.jzon_examples.specs.ReadBack.{server};
ghost use Rattle.jzon_typed.specs.Alike.{AlikeBy};

use jzon::JsonValue;
use jzon_typed::decode::{self, Error, Fields, FromJson, ReadsAlike};
use jzon_typed::encode::{self, Members, ReadsBack, ToJson};
use std::alloc::Global;
use std::result::Result;

/// A server. An equal one is read back.
#[derive(Drop, PartialEq)]
pub struct Server {
    pub host: String,
    pub port: u16,
    pub secure: bool,
    pub tags: Vec<String>,
}

impl ToJson for Server {
    ghost shows = { server.shows };

    fn to_json(&self, alloc: Global) -> jzon::Result<JsonValue> {
        Members::new(alloc)
            .put("host", &self.host)?
            .put("port", &self.port)?
            .put("secure", &self.secure)?
            .put("tags", &self.tags)?
            .done()
    }
}

impl FromJson for Server {
    ghost gives = { server.gives };

    ghost takes = { server.takes };

    fn from_json(alloc: Global, value: &JsonValue) -> Result<Server, Error> {
        let server = Fields::of(alloc, value)?;
        Ok(Server {
            host: server.read("host")?,
            port: server.read("port")?,
            secure: server.read("secure")?,
            tags: server.read("tags")?,
        })
    }
}

impl ReadsBack for Server {
    ghost back = { server.back };

    ghost taken = { server.taken };
}

impl ReadsAlike for Server {
    ghost alike = { server.alike };

    ghost taken_alike = { server.taken_alike };
}

/// What is read of what is written.
pub fn copied(alloc: Global, source: &Server) -> Result<Server, Error>
    ensures { IfOk result (λ copy. server.equal copy source.now ≡ true) }
{
    encode::read_back(alloc, source)
}

/// Equal values are read as equal servers. It does nothing: the law is its contract.
pub fn read_alike()
    ensures { AlikeBy server.gives server.equal }
{
    decode::law_of::<Server>();
}
