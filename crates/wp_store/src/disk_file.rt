ghost use Rattle.std.specs.Prelude.{◌≡◌, ◌+◌, ◌<◌, ◌≤◌, ℕ, None, length, take, drop, option_map, IfOk, OnOk, OnErr};
ghost use Rattle.std.specs.Prelude.{IsErrOf};
ghost use Rattle.std.specs.Io.{ReadsAtMost};
ghost use Rattle.wp_store.specs.Disk.{DiskTold, WhereTold, written_over, Torn, Cut, Stays, Only, OneCall, NoSync};
ghost use Rattle.wp_store.specs.Disk.{OneSync, IsDisk, one_more};
ghost use Rattle.wp_store.specs.DiskFile.{FileCall, TellsCountsAlone};
ghost use Rattle.wp_store.specs.declared.disk.DiskFault.TheVariants.{Failed};

use crate::disk::{DiskFailed, DiskFault};

impl From<DiskFailed> for DiskFault {
    ghost from_gives = { λ _ fault. fault ≡ Failed };

    fn from(_failed: DiskFailed) -> DiskFault {
        DiskFault::Failed
    }
}

/// The file in which a disk keeps its bytes, by the calls that a system has for one file.
pub trait DiskFile {
    /// What it tells, as a disk does. One that doesn't tell its bytes tells its counts alone.
    ghost told: { Self → DiskTold };

    /// Where the next read or write begins.
    ghost position: { Self → ℕ };

    /// Goes to a place. The count of faults rises by one with `DiskFailed`, and with nothing else, here and in all
    /// calls.
    fn seek(&mut self, place: u64) -> Result<(), DiskFailed>
        ensures moved { OnOk result (WhereTold (told self.old).holds
            (λ _. position self.new ≡ place)) }
        ensures same { (told self.new).holds ≡ (told self.old).holds }
        ensures calls { FileCall Stays (told self.old) (told self.new) }
        ensures failed { OnErr result ((told self.new).faults ≡ one_more (told self.old).faults) }
        ensures sound { OnOk result ((told self.new).faults ≡ (told self.old).faults) };

    /// Reads the next bytes, and answers how many: none at the end. After an `Err` none was read.
    fn read(&mut self, piece: &mut [u8]) -> Result<usize, DiskFault>
        ensures bound { ReadsAtMost result piece.new }
        ensures bytes { IfOk result (λ n. WhereTold (told self.old).holds (λ bytes.
            take n piece.new ≡ take n (drop (position self.old) bytes))) }
        ensures end { IfOk result (λ n. n ≡ 0 → 0 < length piece.new
            → WhereTold (told self.old).holds (λ bytes.
            length bytes ≤ position self.old)) }
        ensures moved { IfOk result (λ n. WhereTold (told self.old).holds (λ _.
            position self.new ≡ position self.old + n)) }
        ensures unmoved { OnErr result (WhereTold (told self.old).holds
            (λ _. position self.new ≡ position self.old)) }
        ensures same { (told self.new).holds ≡ (told self.old).holds }
        ensures calls { FileCall Stays (told self.old) (told self.new) }
        ensures short { ¬ IsErrOf result DiskFault.TooLong }
        ensures failed { IsErrOf result DiskFault.Failed
            → (told self.new).faults ≡ one_more (told self.old).faults }
        ensures sound { (IsErrOf result DiskFault.Failed → ⊥)
            → (told self.new).faults ≡ (told self.old).faults };

    /// Writes the first bytes of a piece over what stands next, and past the end, and answers how many: at least one,
    /// unless the piece is empty. Until a sync, a crash may leave any bytes where the piece was to stand.
    fn write(&mut self, piece: &[u8]) -> Result<usize, DiskFailed>
        requires { WhereTold (told self.old).holds (λ bytes. position self.old ≤ length bytes) }
        ensures within { IfOk result (λ n. n ≤ length piece.now) }
        ensures progress { 0 < length piece.now → IfOk result (λ n. 0 < n) }
        ensures written { IfOk result (λ n. (told self.new).holds
            ≡ option_map (written_over (position self.old) (take n piece.now)) (told self.old).holds) }
        ensures moved { IfOk result (λ n. WhereTold (told self.old).holds (λ _.
            position self.new ≡ position self.old + n)) }
        ensures calls { FileCall (Torn (position self.old) (length piece.now)) (told self.old)
            (told self.new) }
        ensures failed { OnErr result ((told self.new).faults ≡ one_more (told self.old).faults) }
        ensures sound { OnOk result ((told self.new).faults ≡ (told self.old).faults) };

    /// Cuts the file to a length. Until a sync, a crash may leave what was cut away.
    fn cut(&mut self, size: u64) -> Result<(), DiskFailed>
        requires { WhereTold (told self.old).holds (λ bytes. size ≤ length bytes) }
        ensures written { OnOk result ((told self.new).holds
            ≡ option_map (take size) (told self.old).holds) }
        ensures calls { FileCall (Cut size) (told self.old) (told self.new) }
        ensures failed { OnErr result ((told self.new).faults ≡ one_more (told self.old).faults) }
        ensures sound { OnOk result ((told self.new).faults ≡ (told self.old).faults) };

    /// After it, what the file holds is the only image.
    fn sync(&mut self) -> Result<(), DiskFailed>
        ensures same { OnOk result ((told self.new).holds ≡ (told self.old).holds) }
        ensures durable { OnOk result (WhereTold (told self.old).holds
            (λ bytes. Only bytes (told self.new).images)) }
        ensures calls { OneCall Stays (told self.old) (told self.new) }
        ensures synced { OnOk result (WhereTold (told self.old).holds
            (λ _. OneSync (told self.old) (told self.new))) }
        ensures unsynced { OnErr result (NoSync (told self.old) (told self.new)) }
        ensures failed { OnErr result ((told self.new).faults ≡ one_more (told self.old).faults) }
        ensures sound { OnOk result ((told self.new).faults ≡ (told self.old).faults) };

    /// What is so of each disk is so of it.
    ghost is_disk: { (file : Self) → IsDisk (told file) };

    /// Where its bytes aren't told, its counts are all that is.
    ghost counts_alone: { (file : Self) → (told file).holds ≡ None → TellsCountsAlone (told file) };
}
