//! The line that is stored for each worked row, with its end.
//!
//! `tools/gate/tables.py` writes this file, by `docs/tables/rows.tsv`.

pub(crate) const ROW_1: &str = "YES channels 1 samples 2 annotations 0\n";

pub(crate) const ROW_2: &str = "YES channels 2 samples 24 annotations 3\n";

pub(crate) const ROW_3: &str = "YES channels 2 samples 24 annotations 3\n";

pub(crate) const ROW_4: &str = "YES channels 2 samples 12 annotations 1\n";

pub(crate) const ROW_5: &str = "NO 10 sample \"ECG\" at 3000000000000 ps extra\n";

pub(crate) const ROW_6: &str = "YES channels 2 samples 12 annotations 2\n";

pub(crate) const ROW_7: &str = "NO 2 export fault: NotContiguous at record 1\n";

pub(crate) const ROW_8: &str =
    "NO 10 sample \"EEG Fpz-Cz\" at 750000000000 ps original 30 export 31\n";

pub(crate) const ROW_9: &str = "NO 10 sample \"ECG\" at 2500000000000 ps original 105 export 104\n";

pub(crate) const ROW_10: &str = "YES channels 1 samples 6 annotations 0\n";

pub(crate) const ROW_11: &str = "NO 10 sample \"Temp\" at 1000000000000 ps missing\n";

pub(crate) const ROW_12: &str = "NO 10 sample \"Temp\" at 333333333333 ps extra\n";

pub(crate) const ROW_13: &str = "NO 10 sample \"Temp\" at 333333333333 ps original 2 export 9\n";

pub(crate) const ROW_14: &str = "YES channels 2 samples 24 annotations 3\n";

pub(crate) const ROW_15: &str = "YES channels 2 samples 24 annotations 3\n";

pub(crate) const ROW_16: &str = "NO 7 calibration \"EEG Fpz-Cz\"\n";

pub(crate) const ROW_17: &str = "NO 7 calibration \"EEG Fpz-Cz\"\n";

pub(crate) const ROW_18: &str = "NO 8 subfield name not X\n";

pub(crate) const ROW_19: &str = "NO 8 subfield sex changed\n";

pub(crate) const ROW_20: &str = "YES channels 2 samples 24 annotations 3\n";

pub(crate) const ROW_21: &str = "NO 8 subfield patient-extras not X\n";

pub(crate) const ROW_22: &str = "NO 8 subfield patient-extras changed\n";

pub(crate) const ROW_23: &str = "YES channels 2 samples 24 annotations 3\n";

pub(crate) const ROW_24: &str = "NO 8 subfield date changed\n";

pub(crate) const ROW_25: &str = "NO 2 export fault: StartdateDiffers at header field startdate\n";

pub(crate) const ROW_26: &str = "YES channels 2 samples 24 annotations 3\n";

pub(crate) const ROW_27: &str =
    "NO 11 annotation missing at 1500000000000 ps duration 1000000000000 ps text \"Apnea\"\n";

pub(crate) const ROW_28: &str =
    "NO 11 annotation extra at 500000000000 ps duration none text \"Lights off\"\n";

pub(crate) const ROW_29: &str = "NO 2 export fault: Truncated at record 3\n";

pub(crate) const ROW_30: &str = "NO 2 export fault: TrailingBytes at end\n";

pub(crate) const ROW_31: &str = "NO 1 original fault: Truncated at header field version\n";

pub(crate) const ROW_32: &str = "NO 2 export fault: Truncated at signal 2 field label\n";

pub(crate) const ROW_33: &str = "NO 2 export fault: BadTal(NotUtf8) at record 3\n";

pub(crate) const ROW_34: &str = "NO 1 original fault: BadRange at header field records\n";

pub(crate) const ROW_35: &str = "NO 9 not clean header\n";

pub(crate) const ROW_36: &str = "NO 9 not clean \"ECG\"\n";

pub(crate) const ROW_37: &str = "YES channels 2 samples 24 annotations 3\n";

pub(crate) const ROW_38: &str = "NO 5 extra channel \"EEG Fpz-Cz\"\n";

pub(crate) const ROW_39: &str = "NO 4 missing channel \"ECG\"\n";

pub(crate) const ROW_40: &str = "NO 6 channel text \"ECG\" prefilter\n";

pub(crate) const ROW_41: &str = "NO 3 unknown channel \"EMG\"\n";

pub(crate) const ROW_42: &str = "NO 2 export fault: BadStart at header field startdate\n";

pub(crate) const ROW_53: &str =
    "NO 11 annotation extra at 1500000000000 ps duration 1000000000000 ps text \"Apnea\"\n";

pub(crate) const ROW_54: &str = "YES channels 2 samples 24 annotations 3\n";

pub(crate) const ROW_55: &str =
    "NO 11 annotation extra at 500000000000 ps duration none text \"Lights off\"\n";

pub(crate) const ROW_56: &str = "YES channels 2 samples 24 annotations 2\n";

pub(crate) const ROW_57: &str = "YES channels 2 samples 24 annotations 1\n";

pub(crate) const ROW_58: &str = "YES channels 2 samples 24 annotations 3\n";

pub(crate) const ROW_59: &str = "YES channels 2 samples 24 annotations 3\n";

pub(crate) const ROW_60: &str = "NO 2 export fault: BadStart at header field startdate\n";

pub(crate) const ROW_61: &str = "NO 2 export fault: StartdateDiffers at header field startdate\n";

pub(crate) const ROW_62: &str = "NO 2 export fault: StartdateDiffers at header field startdate\n";

pub(crate) const ROW_63: &str = "YES parts 1 channels 2 samples 24 annotations 3\n";

pub(crate) const ROW_64: &str = "YES parts 2 channels 2 samples 24 annotations 3\n";

pub(crate) const ROW_65: &str = "NO 12 part 1 starts early\n";

pub(crate) const ROW_66: &str = "NO 12 part 1 starts early\n";

pub(crate) const ROW_67: &str = "NO 10 sample \"ECG\" at 2000000000000 ps missing\n";

pub(crate) const ROW_68: &str = "NO 2 part 1 export fault: Truncated at record 1\n";

pub(crate) const ROW_69: &str = "NO 8 part 1 subfield sex changed\n";
