// Items: a value, and inside `path(f)` its path.
ghost use Rattle.std.specs.Prelude.{◌≡◌, ◌++◌, ◌∷◌, [], IfOk, OnOk, option_map, is_some, unwrap_or};
ghost use Rattle.jv_data.specs.Value.{array, items_of};
ghost use Rattle.jv_data.specs.View.{view};
ghost use Rattle.jq_meaning.specs.Runs.{plain, located, value_in, path_of};
ghost use Rattle.jq_state.specs.Items.{keys_of, item_of};

use jv_data::{Array, NoMemory, Val};
use std::alloc::Global;

/// The path of an item, if paths are kept. Copies share the keys.
pub enum Path {
    /// Outside of `path(f)`.
    Absent,
    /// That of the input of `path(f)`.
    Empty,
    Keys(Array<Val>),
}

// A `Drop` of its own, for the reason at `Val`.
impl Drop for Path {
    fn drop(self) {
        match self {
            Path::Absent => {}
            Path::Empty => {}
            Path::Keys(_) => {}
        }
    }
}

/// An output of a filter.
#[derive(Drop)]
pub struct Item {
    pub value: Val,
    pub path: Path,
}

impl Path {
    /// An equal path. Nothing is allocated.
    pub fn copy(&self) -> Result<Path, NoMemory>
        ensures { IfOk result (λ p. keys_of p ≡ keys_of self.now) }
    {
        match self {
            Path::Absent => Ok(Path::Absent),
            Path::Empty => Ok(Path::Empty),
            Path::Keys(keys) => Ok(Path::Keys(keys.share()?)),
        }
    }

    pub fn is_present(&self) -> bool
        ensures { result ≡ is_some (keys_of self.now) }
    {
        match self {
            Path::Absent => false,
            Path::Empty => true,
            Path::Keys(_) => true,
        }
    }

    /// Adds a key at the end of the path, if there is a path.
    pub fn push(&mut self, alloc: Global, key: Val) -> Result<(), NoMemory>
        ensures { OnOk result (keys_of self.new ≡ option_map (λ ks. ks ++ view key ∷ []) (keys_of self.old)) }
    {
        match self {
            Path::Absent => {}
            Path::Empty => {
                let keys = Array::from_vec(alloc, vec![in alloc; key]?)?;
                *self = Path::Keys(keys);
            }
            Path::Keys(keys) => keys.push(key)?,
        }
        Ok(())
    }

    // The keys as an array, which is empty outside of `path(f)`.
    fn into_keys(self, alloc: Global) -> Result<Val, NoMemory>
        ensures { IfOk result (λ v. view v ≡ array (items_of (unwrap_or (keys_of self) []))) }
    {
        match self {
            Path::Keys(keys) => Ok(Val::List(keys)),
            _ => Ok(Val::List(Array::from_vec(alloc, Vec::new(alloc))?)),
        }
    }
}

impl Item {
    pub fn plain(value: Val) -> Item
        ensures { item_of result ≡ plain (view value) }
    {
        Item {
            value,
            path: Path::Absent,
        }
    }

    /// A value with an empty path: the input of `path(f)`.
    pub fn start(value: Val) -> Item
        ensures { item_of result ≡ located (view value) [] }
    {
        Item {
            value,
            path: Path::Empty,
        }
    }

    /// An equal item. Nothing is allocated.
    pub fn copy(&self) -> Result<Item, NoMemory>
        ensures { IfOk result (λ x. item_of x ≡ item_of self.now) }
    {
        let value = self.value.copy()?;
        let path = self.path.copy()?;
        Ok(Item { value, path })
    }

    /// The item's path as an array of keys. It is empty outside of `path(f)`.
    pub fn into_path(self, alloc: Global) -> Result<Val, NoMemory>
        ensures { IfOk result (λ v. view v ≡ array (items_of (path_of (item_of self)))) }
    {
        let Item { value, path } = self;
        drop(value);
        path.into_keys(alloc)
    }
}
