ghost use Rattle.std.specs.Prelude.{ℕ, ◌<◌, ◌≤◌, ◌^◌, length, slice_index_or};
ghost use Rattle.bits_core.specs.declared.names.File.{File};

use bits_core::FileList;

/// The files of a check: the named sources first, then those that they include.
#[derive(Drop)]
pub struct Files {
    pub list: FileList,
    pub named: usize,
    pub ghost sources: { named ≤ length list },
    pub ghost few: { length list < 2 ^ 32 },
    pub ghost small: { (at : ℕ) (other : File) → at < length list → length (slice_index_or list at other).bytes ≤ 2 ^ 24 },
}
