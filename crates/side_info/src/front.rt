//! The fields before the granules.

/// The fields before the granules (ISO/IEC 11172-3, 2.4.1.7).
#[derive(Clone, Copy, Drop)]
pub(crate) struct Front {
    pub main_data_begin: u16,
    pub private_bits: u8,
    pub scfsi: [u8; 2],
}
