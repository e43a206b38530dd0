//! What a frame leaves free.
ghost use Rattle.std.specs.Prelude.{◌≡◌, ◌+◌, ◌≤◌};
ghost use Rattle.slot_plan.specs.Reserve.{free_bytes_behind};
ghost use Rattle.frame_header.specs.Limits.{most_back, most_frame_length};

/// The free bytes after a frame: what it leaves of the free bytes before it and of its own area,
/// but at most the window.
pub fn free_behind(window: u32, free: u32, bytes: u32, area: u32) -> u32
    requires window { window ≤ most_back }
    requires free { free ≤ window }
    requires area { area ≤ most_frame_length }
    requires fits { bytes ≤ free + area }
    ensures free { result ≡ free_bytes_behind window free bytes area }
    ensures within { result ≤ window }
{
    (free + area - bytes).min(window)
}
