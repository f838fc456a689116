//! Objects at 1,024 places.
ghost use Rattle.std.specs.Prelude.{◌≡◌, ◌<◌, [], ℕ, length, slice_index_or, OnOk};
ghost use Rattle.query_walk.specs.Slots.{IsPut};

use flow_base::NoMemory;
use std::alloc::Global;
use std::marker::Model;

/// An object for each of 1,024 places. A page takes no memory until the first object is put into it.
#[derive(Drop)]
pub struct Page {
    objects: Vec<u32>,
}

impl Model for Page {
    ghost use Rattle.std.specs.Prelude.{List, ℕ, ◌≡◌, ◌⊎◌, length};

    ghost Value = { List ℕ };

    ghost view = { λ p. p.objects.items };

    ghost invariant = { λ p. (length p.objects.items ≡ 0) ⊎ (length p.objects.items ≡ 1024) };
}

impl Page {
    /// No objects.
    pub fn new(alloc: Global) -> Page
        ensures { result ≡ [] }
    {
        Page {
            objects: Vec::new(alloc),
        }
    }

    /// Puts an object at a place.
    pub fn put(&mut self, alloc: Global, at: usize, object: u32) -> Result<(), NoMemory>
        requires { at < 1024 }
        ensures { OnOk result (IsPut self.old at object self.new) }
    {
        self.fill(alloc)?;
        self.objects[at] = object;
        Ok(())
    }

    /// Takes the memory for the objects, if it wasn't taken yet.
    fn fill(&mut self, alloc: Global) -> Result<(), NoMemory>
        ensures len { OnOk result (length self.new ≡ 1024) }
        ensures same { (p : ℕ) → slice_index_or self.new p 0 ≡ slice_index_or self.old p 0 }
    {
        if self.objects.is_empty() {
            self.objects = vec![in alloc; 0u32; 1024]?;
        }
        Ok(())
    }

    /// The object at a place, or 0 if there is none.
    pub fn get(&self, at: usize) -> u32
        ensures { result ≡ slice_index_or self.now at 0 }
    {
        match self.objects.get(at) {
            Some(object) => *object,
            None => 0,
        }
    }
}
