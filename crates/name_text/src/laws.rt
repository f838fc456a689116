//! What paths keep, as functions that only state it.
ghost use Rattle.std.specs.Prelude.{◌≡◌, ◌≢◌, ℕ, List, Option, [], ◌∷◌, ◌++◌, true, codes};
ghost use Rattle.name_text.specs.Paths.{is_absolute, joined, path_of, tidied};
ghost use Rattle.name_text.specs.TidyPaths.{AreTidy, IsName};

/// The working directory of an absolute name doesn't matter.
pub fn absolute_names_stand_alone()
    ensures { (first second : Option (List ℕ)) (name : List ℕ) (limit : ℕ)
        → is_absolute name ≡ true → joined first name limit ≡ joined second name limit }
{}

/// A tidied path has names alone, with `..` before them only if it is relative.
pub fn tidied_paths_have_names()
    ensures { (path : List ℕ) → (parts : List (List ℕ))
        × (tidied path ≡ path_of (is_absolute path) parts) × AreTidy (is_absolute path) parts }
{}

/// A tidied path is left as it is.
pub fn tidied_paths_stay()
    ensures { (path : List ℕ) → tidied (tidied path) ≡ tidied path }
{}

/// A `..` undoes the name before it.
pub fn a_way_up_takes_a_name_back()
    ensures { (path name : List ℕ) → path ≢ [] → IsName name
        → tidied (path ++ 47 ∷ (name ++ codes "/..")) ≡ tidied path }
{}
