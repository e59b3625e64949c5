use bumpalo::Bump;
use sp_base::Image;
use std::alloc::Global;

/// Where terms are made, and the image that they speak of.
#[derive(Clone, Copy)]
pub struct Place<'a, 'i> {
    pub alloc: Global,
    pub arena: &'a Bump,
    pub image: &'i Image,
}
