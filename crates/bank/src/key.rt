// What a share is known by on a sled.

// The key of a share on a sled: the file's id and the share's number. The sled's number stays beside it, since half of the calls on a sled are about no share.
#[derive(Clone, Copy, Debug, PartialEq, Eq, Hash)]
pub struct Key {
    pub id: u32,
    pub number: usize,
}
