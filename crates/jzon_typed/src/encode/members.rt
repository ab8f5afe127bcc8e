//! An object that is made of its entries, one by one.

ghost use Rattle.std.specs.Prelude.{◌≡◌, ◌⊎◌, [], IfOk, IsOk, IsOkUnless, MatchOption};
ghost use Rattle.jzon.specs.Entries.{entries_of};
ghost use Rattle.jzon.specs.PairList.{put};
ghost use Rattle.jzon.specs.Value.{Value};
ghost use Rattle.jzon.specs.View.{view, view_object, viewed};

use super::ToJson;
use jzon::object::Object;
use jzon::{Error, JsonValue, Result};
use std::alloc::Global;

/// The entries of an object that is made. It is passed on from call to call, so after an error
/// nothing is left of it.
#[derive(Drop)]
pub struct Members {
    alloc: Global,
    pub(crate) object: Object,
}

impl Members {
    /// No entries. It allocates nothing.
    pub fn new(alloc: Global) -> Members
        ensures { entries_of result.object ≡ [] }
    {
        Members {
            alloc,
            object: Object::new(alloc),
        }
    }

    /// With an entry more, at the end. A key that is there keeps its position, and gets the value.
    #[tactic(auto, using(crate::proofs::DecodeViews::writing))]
    pub fn put<T: ToJson>(mut self, key: &str, source: &T) -> Result<Members>
        ensures put { IfOk result (λ members. (v : Value) × T.shows source.now v
            × (viewed (entries_of members.object)
            ≡ put key.now v (viewed (entries_of self.object)))) }
        ensures memory { IsOkUnless result Error.OutOfMemory }
    {
        let value = source.to_json(self.alloc)?;
        self.object.insert(self.alloc, key, value)?;
        Ok(self)
    }

    /// With an entry more, unless the source is `None`. `Fields::optional` reads it back.
    pub fn put_some<T: ToJson>(self, key: &str, source: &Option<T>) -> Result<Members>
        ensures put { IfOk result (λ members. MatchOption source.now
            (entries_of members.object ≡ entries_of self.object)
            (λ x. (v : Value) × T.shows x v × (viewed (entries_of members.object)
            ≡ put key.now v (viewed (entries_of self.object))))) }
        ensures memory { IsOkUnless result Error.OutOfMemory }
    {
        match source {
            Some(source) => self.put(key, source),
            None => Ok(self),
        }
    }

    /// The object, as what `to_json` returns. It always succeeds.
    pub fn done(self) -> Result<JsonValue>
        ensures value { IfOk result (λ v. view v ≡ view_object self.object) }
        ensures ok { IsOk result }
    {
        Ok(JsonValue::Object(self.object))
    }
}
