//! The extension of an Info head: the encoder delay and the padding in it.
ghost use Rattle.std.specs.Prelude.{◌≡◌, ◌<◌, option_copied, IfSome};
ghost use Rattle.exact_span.specs.Extensions.{has_encoder, delay_in, padding_in, counts_of, kept_extension, plain_extension, extension_of};

use info_header::Info;

/// What a head counts: frames, at least 1, and delay and padding in samples, two numbers of 12 bits.
#[derive(Clone, Copy, Debug, PartialEq, Eq)]
pub struct HeadCounts {
    pub frames: u32,
    pub delay: u32,
    pub padding: u32,
}

/// Whether the extension begins with the name of an encoder that counts.
#[tactic(auto, unfolding(crate::specs::Extensions::has_encoder))]
fn has_encoder(extension: &[u8; 36]) -> bool
    ensures { result ≡ has_encoder extension.now }
{
    extension.starts_with(b"LAME")
        || extension.starts_with(b"Lavf")
        || extension.starts_with(b"Lavc")
}

/// The upper 12 of the 24 bits in the bytes 21 to 23.
fn delay_in(extension: &[u8; 36]) -> u32
    ensures delay { result ≡ delay_in extension.now }
    ensures most { result < 4096 }
{
    16 * u32::from(extension[21]) + u32::from(extension[22] / 16)
}

/// The lower 12 of these bits.
fn padding_in(extension: &[u8; 36]) -> u32
    ensures padding { result ≡ padding_in extension.now }
    ensures most { result < 4096 }
{
    256 * u32::from(extension[22] % 16) + u32::from(extension[23])
}

/// What the head counts. `None` where there is no head, or its number of frames is missing or 0, or
/// its extension doesn't begin with `LAME`, `Lavf` or `Lavc`.
pub fn counts_of(info: Option<&Info>) -> Option<HeadCounts>
    ensures counts { result ≡ counts_of (option_copied info.entry) }
    ensures padding { IfSome result (λ counts. counts.padding < 4096) }
    ensures delay { IfSome result (λ counts. counts.delay < 4096) }
{
    let info = info?;
    let frames = info.frames?;
    if frames == 0 || !has_encoder(&info.extension) {
        return None;
    }
    Some(HeadCounts {
        frames,
        delay: delay_in(&info.extension),
        padding: padding_in(&info.extension),
    })
}

/// The name LAME, and zeros.
fn plain() -> [u8; 36]
    ensures { result ≡ plain_extension }
{
    let mut extension = [0; 36];
    extension[..4].copy_from_slice(b"LAME");
    extension
}

/// The extension of the input where it begins with the name of an encoder that counts, otherwise the
/// name LAME and zeros.
fn kept(info: Option<&Info>) -> [u8; 36]
    ensures { result ≡ kept_extension (option_copied info.entry) }
{
    match info {
        Some(info) if has_encoder(&info.extension) => info.extension,
        _ => plain(),
    }
}

/// The extension of the input with this delay and padding, two numbers of 12 bits, in samples. Where
/// the input has no head, or its extension doesn't begin with `LAME`, `Lavf` or `Lavc`, it is `LAME`
/// followed by zeros, with these numbers. The bytes 28 to 35 are 0: `seal` writes music length and
/// tag CRC into them.
#[tactic(auto, unfolding(crate::specs::Extensions::extension_of))]
pub fn extension(info: Option<&Info>, delay: u16, padding: u16) -> [u8; 36]
    requires delay { delay < 4096 }
    requires padding { padding < 4096 }
    ensures { result ≡ extension_of (option_copied info.entry) delay padding }
{
    let mut extension = kept(info);
    let numbers = [
        (delay / 16) as u8,
        (delay % 16 * 16 + padding / 256) as u8,
        (padding % 256) as u8,
    ];
    extension[21..24].copy_from_slice(&numbers);
    extension[28..].fill(0);
    extension
}
