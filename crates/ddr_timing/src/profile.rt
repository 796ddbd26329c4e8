//! Profile S, this project's sample configuration: small numbers that can be followed by hand; and profile
//! S2, which is profile S in version 2 with a second rank.

/// The text of profile S.
pub const PROFILE_S: &str = "\
version = 1
channels = 2
ports = 2
window = 4
intake = 8
reads = 8
writes = 8
done = 8
low = 2
high = 6
cap = 1000
groups = 4
rows = 16
columns = 64
map = \"column group bank row channel\"
bank_xor = false
cl = 4
cwl = 3
rcd = 4
rp = 4
ras = 10
rc = 14
rrd_s = 2
rrd_l = 3
faw = 12
ccd_s = 4
ccd_l = 5
wtr_s = 2
wtr_l = 4
wr = 5
rtp = 3
rtw = 7
rfc = 20
refi = 200
postpone = 2
";

/// The text of profile S2.
pub const PROFILE_S2: &str = "\
version = 2
channels = 2
ports = 2
window = 4
intake = 8
reads = 8
writes = 8
done = 8
low = 2
high = 6
cap = 1000
groups = 4
rows = 16
columns = 64
map = \"column group bank row channel rank\"
bank_xor = false
cl = 4
cwl = 3
rcd = 4
rp = 4
ras = 10
rc = 14
rrd_s = 2
rrd_l = 3
faw = 12
ccd_s = 4
ccd_l = 5
wtr_s = 2
wtr_l = 4
wr = 5
rtp = 3
rtw = 7
rfc = 20
refi = 200
postpone = 2
closed = false
ranks = 2
rtrs = 2
";
