//! What the layers above and the tests may ask of the parts of validity.
pub use area_entry::sections_at;
