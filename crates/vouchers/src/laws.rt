//! Laws of the definition by which files of vouchers are read: functions that do nothing.

ghost use Rattle.vouchers.specs.Told.{VoucherFaultIsTold, VouchersAreRecords};

/// A file says vouchers exactly where its first record is the header and each other says one
/// voucher: they are what its records say, in their order (records: RFC 4180).
// rule: voucher-file.vouchers
pub fn vouchers_are_records()
    ensures { VouchersAreRecords }
{}

/// A fault is reported of a file exactly where it is that of the first record that has one, the
/// header being record 1.
// rule: voucher-file.vouchers
pub fn voucher_fault_is_told()
    ensures { VoucherFaultIsTold }
{}
